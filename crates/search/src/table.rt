// The working table of a run: the records of all nodes, in which the two search trees lie, and the two queues, first come first
// served, whose rings lie in the records too.
ghost use Rattle.std.specs.Prelude.{◌≡◌, ◌+◌, ◌^◌, ◌<◌, ◌≤◌, true, false, length};
ghost use Rattle.network.specs.Nets.{at};
ghost use Rattle.trees.specs.declared.work.Parent.TheVariants.{Along};
ghost use Rattle.trees.specs.Forests.{forest, slots, at_lane, with_queued};
ghost use Rattle.trees.specs.Rings.{wrap};
ghost use Rattle.trees.specs.Searches.{Kept};

use network::Terminal;
use trees::{Lane, Parent, Queues, Ring, Tree, Work};

// The records and the queues' rings. The network is no field: a struct with its loan would have each function that changes it say
// that it still holds the same loan. Nor is it a ghost field that the trees stand, which was tried: such a fact has one proof at most,
// and this one tells a climb for each node. Nor a model: what a table means are functions, and a model's value is data.
#[derive(Drop)]
pub(crate) struct Table<'a> {
    work: &'a mut [Work],
    queues: Queues,
    // each queue holds the nodes that are marked as queued, each once
    ghost kept: { Kept work.now queues },
    // so few that a record holds any node's number
    ghost few: { length work.now ≤ 4096 },
}

impl<'a> Table<'a> {
    ghost use Rattle.trees.specs.Forests.{cleared, with_tree, with_parent, with_stage, joined, orphaned};
    ghost use Rattle.trees.specs.Rings.{Picked};
    ghost use Rattle.trees.specs.Trees.{is_of};
    ghost use Rattle.trees.specs.Surveys.{restaged};
    ghost use Rattle.trees.specs.Carryings.{disowned};
    ghost use Rattle.search.specs.Tables.{forest_of, records_of, record_of};

    // The table as a run begins: every node is in no tree and in no queue.
    pub(crate) fn cleared(work: &'a mut [Work]) -> Table<'a>
        requires { length work.old ≤ 4096 }
        ensures { forest_of result ≡ cleared (length work.old) }
    {
        work.fill(Work::blank());
        Table {
            work,
            queues: Queues::default(),
        }
    }

    // The records of all nodes.
    pub(crate) fn records(&self) -> &[Work]
        ensures { result.now ≡ records_of self.now }
    {
        self.work
    }

    // The record of a node.
    #[inline(always)]
    pub(crate) fn work(&self, node: usize) -> &Work
        requires { node < (forest_of self.now).size }
        ensures { result.now ≡ record_of self.now node }
    {
        &self.records()[node]
    }

    // The terminal whose tree a node is in.
    #[inline(always)]
    pub(crate) fn tree(&self, node: usize) -> Option<Terminal>
        requires { node < (forest_of self.now).size }
        ensures { result ≡ (forest_of self.now).tree node }
    {
        self.work(node).tree.terminal()
    }

    // Whether a node is in the tree of a terminal.
    #[inline(always)]
    pub(crate) fn is_in(&self, node: usize, terminal: Terminal) -> bool
        requires { node < (forest_of self.now).size }
        ensures { result ≡ is_of ((forest_of self.now).tree node) terminal }
    {
        self.work(node).tree.is_of(terminal)
    }

    // Puts a node into a tree, or out of both. That a node has a record is asked by each function that goes to it, as by an index.
    pub(crate) fn set_tree(&mut self, node: usize, tree: Option<Terminal>)
        requires { node < (forest_of self.old).size }
        ensures { forest_of self.new ≡ with_tree (forest_of self.old) node tree }
    {
        self.work[node].tree = Tree::of(tree);
    }

    // Hangs a node from another parent. The field is all that it does not share with `set_tree`.
    pub(crate) fn set_parent(&mut self, node: usize, parent: Parent)
        requires { node < (forest_of self.old).size }
        ensures { forest_of self.new ≡ with_parent (forest_of self.old) node parent }
    {
        self.work[node].parent = parent;
    }

    // Remembers that a node hangs from its terminal in this stage of adoption.
    pub(crate) fn set_stage(&mut self, node: usize, stage: u16)
        requires { node < (forest_of self.old).size }
        ensures { forest_of self.new ≡ with_stage (forest_of self.old) node stage }
    {
        self.work[node].stage = stage;
    }

    // Forgets of all nodes in which stage they were last found to hang from their terminal.
    pub(crate) fn forget_stages(&mut self)
        ensures { forest_of self.new ≡ restaged (forest_of self.old) (λ _. 0) }
    {
        for node in 0..self.work.len() {
            self.set_stage(node, 0);
        }
    }

    // Puts a node into a queue, behind the last; nothing if it is there already.
    #[inline(always)]
    pub(crate) fn put(&mut self, lane: Lane, node: usize)
        requires { node < (forest_of self.old).size }
        ensures { forest_of self.new ≡ with_queued (forest_of self.old) lane node true }
    {
        if self.work[node].queued.get(lane) {
            return;
        }
        let Ring { head, count } = self.queues.get(lane);
        let place = wrapped(self.work.len(), head + count);
        enqueue(self.work, lane, place, node);
        let longer = Ring {
            head,
            count: count + 1,
        };
        self.queues.set(lane, longer);
    }

    // Takes the first node out of a queue; none if the queue is empty.
    #[inline(always)]
    pub(crate) fn pick(&mut self, lane: Lane) -> Option<usize>
        ensures { Picked lane (forest_of self.old) (forest_of self.new) result }
    {
        let Ring { head, count } = self.queues.get(lane);
        if count == 0 {
            return None;
        }
        let size = self.work.len();
        let node = self.work[head].slots.get(lane) as usize;
        dequeue(self.work, lane, node);
        let shorter = Ring {
            head: place_after(size, head),
            count: count - 1,
        };
        self.queues.set(lane, shorter);
        Some(node)
    }

    // Puts a node into a tree, below a parent; it waits for its arcs to be looked at.
    pub(crate) fn join(&mut self, terminal: Terminal, node: usize, parent: Parent)
        requires { node < (forest_of self.old).size }
        ensures { forest_of self.new ≡ joined (forest_of self.old) terminal node parent }
    {
        self.set_tree(node, Some(terminal));
        self.set_parent(node, parent);
        self.put(Lane::Waiting, node);
    }

    // Takes a node's parent away; it waits for another one.
    pub(crate) fn orphan(&mut self, node: usize)
        requires { node < (forest_of self.old).size }
        ensures { forest_of self.new ≡ orphaned (forest_of self.old) node }
    {
        self.set_parent(node, Parent::Orphan);
        self.put(Lane::Orphans, node);
    }

    // Takes the child's parent away, if that is the arc.
    pub(crate) fn disown(&mut self, child: usize, arc: usize)
        requires { child < (forest_of self.old).size }
        ensures { forest_of self.new ≡ disowned (forest_of self.old) child arc }
    {
        if self.work(child).parent.is_along(arc) {
            self.orphan(child);
        }
    }
}

// Where a node hangs that hangs from another, by the arc between them. A network has few enough of both that a record holds any.
#[inline(always)]
pub(crate) fn hanging(arc: usize, node: usize) -> Parent
    requires arc { arc < 2 ^ 16 }
    requires node { node < 2 ^ 16 }
    ensures { result ≡ Along arc node }
{
    Parent::Along {
        arc: arc as u16,
        node: node as u16,
    }
}

// The place of a ring that has this number, counted on past the table's last record: the place after that is the first.
#[inline(always)]
fn wrapped(size: usize, number: usize) -> usize
    ensures { result ≡ wrap size number }
{
    if number < size { number } else { number - size }
}

// The place of a ring after another.
#[inline(always)]
fn place_after(size: usize, place: usize) -> usize
    requires { place < size }
    ensures { result ≡ wrap size (place + 1) }
{
    if place + 1 < size { place + 1 } else { 0 }
}

// Writes a node to a place of a queue's ring, and marks it as queued.
fn enqueue(work: &mut [Work], lane: Lane, place: usize, node: usize)
    requires place { place < length work.old }
    requires node { node < length work.old }
    requires few { length work.old ≤ 4096 }
    ensures trees { forest work.new ≡ with_queued (forest work.old) lane node true }
    ensures places { slots work.new ≡ at_lane (slots work.old) lane (at (slots work.old lane) place node) }
{
    work[place].slots.set(lane, node as u16);
    work[node].queued.set(lane, true);
}

// Marks a node as no longer queued.
fn dequeue(work: &mut [Work], lane: Lane, node: usize)
    requires { node < length work.old }
    ensures trees { forest work.new ≡ with_queued (forest work.old) lane node false }
    ensures places { slots work.new ≡ slots work.old }
{
    work[node].queued.set(lane, false);
}
