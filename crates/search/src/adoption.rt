// Adoption: each node that has lost its parent finds another one in its tree, or becomes free.
ghost use Rattle.std.specs.Prelude.{◌≡◌, ◌+◌, ◌<◌, ◌≤◌, true, Some};
ghost use Rattle.trees.specs.declared.lane.Lane.TheVariants.{Orphans};
ghost use Rattle.trees.specs.declared.work.Parent.TheVariants.{Orphan};
ghost use Rattle.trees.specs.Rings.{Empty};
ghost use Rattle.trees.specs.Trees.{Anchored, Trees, adoption_left};
ghost use Rattle.trees.specs.Surveys.{Survey, Offered, restaged, SurveyKept, StagesBelow};
ghost use Rattle.trees.specs.Searches.{TreesBut};
ghost use Rattle.search.specs.Adoptions.{Inward, Found, woken, released, OrphanOf};
ghost use Rattle.search.specs.Tables.{forest_of};

use super::reading::{Neighbour, neighbours};
use super::table::{Table, hanging};
use network::{Network, Terminal};
use trees::{Lane, Parent, Work};

// The adoption of an orphan of the terminal's tree, in a stage that tells which nodes were seen to hang from their terminal since. What
// it may rely on (`Survey`) is about the table as it is, which its functions change: with the table's loan in it, each would have to
// say that it still holds the same.
#[derive(Drop)]
struct Adoption<'a, N> {
    net: &'a N,
    terminal: Terminal,
    stage: u16,
}

impl<N: Network> Adoption<'_, N> {
    // Whether a node hangs from its terminal. A node that is known to do so in this stage ends the climb, and no climb has more steps
    // than there are records.
    fn is_anchored(&self, table: &Table, node: usize) -> bool
        requires survey { Survey (N.Network.value self.now.net.now) (forest_of table.now) self.now.stage }
        requires there { node < (N.Network.value self.now.net.now).graph.nodes }
        requires mine { (forest_of table.now).tree node ≡ Some self.now.terminal }
        ensures { result ≡ true → Anchored (N.Network.value self.now.net.now).graph (forest_of table.now).parent self.now.terminal node }
    {
        let mut at = node;
        for _ in 0..table.records().len() {
            let record = table.work(at);
            if record.stage == self.stage {
                return true;
            }
            match record.parent {
                Parent::Orphan => return false,
                Parent::Root => return true,
                Parent::Along { node: above, .. } => at = above as usize,
            }
        }
        false
    }

    // Remembers for this stage that a node, and all from which it hangs, hang from their terminal.
    fn remember(&self, table: &mut Table, node: usize)
        requires survey { Survey (N.Network.value self.now.net.now) (forest_of table.old) self.now.stage }
        requires there { node < (N.Network.value self.now.net.now).graph.nodes }
        requires mine { (forest_of table.old).tree node ≡ Some self.now.terminal }
        requires anchored { Anchored (N.Network.value self.now.net.now).graph (forest_of table.old).parent self.now.terminal node }
        ensures survey { Survey (N.Network.value self.now.net.now) (forest_of table.new) self.now.stage }
        ensures trees { forest_of table.new ≡ restaged (forest_of table.old) (forest_of table.new).stage }
    {
        let mut at = node;
        for _ in 0..table.records().len() {
            let record = *table.work(at);
            if record.stage == self.stage {
                return;
            }
            table.set_stage(at, self.stage);
            let Parent::Along { node: above, .. } = record.parent else {
                return;
            };
            at = above as usize;
        }
    }

    // Whether an orphan can hang from a neighbour.
    #[inline(always)]
    fn can_take(&self, table: &Table, node: usize, next: Neighbour) -> bool
        requires survey { Survey (N.Network.value self.now.net.now) (forest_of table.now) self.now.stage }
        requires inward { Inward (N.Network.value self.now.net.now) self.now.terminal node next }
        ensures { result ≡ true → Offered (N.Network.value self.now.net.now) (forest_of table.now) self.now.terminal node next.inward next.node }
    {
        table.is_in(next.node, self.terminal)
            && next.inward_residual > 0
            && self.is_anchored(table, next.node)
    }

    // The first neighbour that an orphan can take as its parent.
    #[inline(always)]
    fn find_parent(&self, table: &Table, node: usize) -> Option<Neighbour>
        requires survey { Survey (N.Network.value self.now.net.now) (forest_of table.now) self.now.stage }
        requires there { node < (N.Network.value self.now.net.now).graph.nodes }
        ensures { Found (N.Network.value self.now.net.now) (forest_of table.now) self.now.terminal node result }
    {
        for next in neighbours(self.net, self.terminal, node) {
            if self.can_take(table, node, next) {
                return Some(next);
            }
        }
        None
    }

    // Frees an orphan: its children become orphans, and those from which its tree could take it again wait.
    #[inline(always)]
    fn free(&self, table: &mut Table, node: usize)
        requires trees { TreesBut (N.Network.value self.now.net.now) (forest_of table.old) Orphans node }
        requires there { node < (N.Network.value self.now.net.now).graph.nodes }
        requires mine { (forest_of table.old).tree node ≡ Some self.now.terminal }
        requires alone { (forest_of table.old).parent node ≡ Orphan }
        ensures trees { Trees (N.Network.value self.now.net.now) (forest_of table.new) }
        ensures survey { SurveyKept (N.Network.value self.now.net.now) (forest_of table.old) (forest_of table.new) }
        ensures left { adoption_left (N.Network.value self.now.net.now).graph.nodes (forest_of table.new) < adoption_left (N.Network.value self.now.net.now).graph.nodes (forest_of table.old) }
    {
        for next in neighbours(self.net, self.terminal, node) {
            self.release(table, next);
        }
        table.set_tree(node, None);
    }

    // Lets a neighbour wait, if something can be sent from it.
    #[inline(always)]
    fn wake(&self, table: &mut Table, next: Neighbour)
        requires { next.node < (forest_of table.old).size }
        ensures { forest_of table.new ≡ woken next (forest_of table.old) }
    {
        if next.inward_residual > 0 {
            table.put(Lane::Waiting, next.node);
        }
    }

    // Lets go of a neighbour of a node that is about to be free.
    #[inline(always)]
    fn release(&self, table: &mut Table, next: Neighbour)
        requires { next.node < (forest_of table.old).size }
        ensures { forest_of table.new ≡ released self.now.terminal next (forest_of table.old) }
    {
        if table.is_in(next.node, self.terminal) {
            self.wake(table, next);
            table.disown(next.node, next.outward);
        }
    }

    // Finds a parent for an orphan, or frees it.
    #[inline(always)]
    fn adopt_one(&self, table: &mut Table, node: usize)
        requires trees { TreesBut (N.Network.value self.now.net.now) (forest_of table.old) Orphans node }
        requires there { node < (N.Network.value self.now.net.now).graph.nodes }
        requires mine { (forest_of table.old).tree node ≡ Some self.now.terminal }
        requires alone { (forest_of table.old).parent node ≡ Orphan }
        requires survey { Survey (N.Network.value self.now.net.now) (forest_of table.old) self.now.stage }
        ensures trees { Trees (N.Network.value self.now.net.now) (forest_of table.new) }
        ensures survey { Survey (N.Network.value self.now.net.now) (forest_of table.new) self.now.stage }
        ensures left { adoption_left (N.Network.value self.now.net.now).graph.nodes (forest_of table.new) ≤ adoption_left (N.Network.value self.now.net.now).graph.nodes (forest_of table.old) }
    {
        match self.find_parent(table, node) {
            Some(parent) => {
                table.set_parent(node, hanging(parent.inward, parent.node));
                self.remember(table, node);
            }
            None => self.free(table, node),
        }
    }
}

// The same, compiled for each tree by itself.
fn adopt_in<N: Network>(net: &N, table: &mut Table, terminal: Terminal, stage: u16, node: usize)
    requires trees { TreesBut (N.Network.value net.now) (forest_of table.old) Orphans node }
    requires there { node < (N.Network.value net.now).graph.nodes }
    requires mine { (forest_of table.old).tree node ≡ Some terminal }
    requires alone { (forest_of table.old).parent node ≡ Orphan }
    requires survey { Survey (N.Network.value net.now) (forest_of table.old) stage }
    ensures trees { Trees (N.Network.value net.now) (forest_of table.new) }
    ensures survey { Survey (N.Network.value net.now) (forest_of table.new) stage }
    ensures left { adoption_left (N.Network.value net.now).graph.nodes (forest_of table.new) ≤ adoption_left (N.Network.value net.now).graph.nodes (forest_of table.old) }
{
    match terminal {
        Terminal::Source => {
            let terminal = Terminal::Source;
            Adoption {
                net,
                terminal,
                stage,
            }
            .adopt_one(table, node)
        }
        Terminal::Sink => {
            let terminal = Terminal::Sink;
            Adoption {
                net,
                terminal,
                stage,
            }
            .adopt_one(table, node)
        }
    }
}

// Finds parents for all orphans, or frees them. The stage is a number that no record carries yet.
pub(crate) fn adopt<N: Network>(net: &N, table: &mut Table, stage: u16)
    requires trees { Trees (N.Network.value net.now) (forest_of table.old) }
    requires fresh { StagesBelow (forest_of table.old) stage }
    ensures trees { Trees (N.Network.value net.now) (forest_of table.new) }
    ensures adopted { Empty (forest_of table.new) Orphans }
    ensures stages { StagesBelow (forest_of table.new) (stage + 1) }
{
    while let Some(node) = table.pick(Lane::Orphans) {
        if let Some(terminal) = orphan_tree(table.work(node)) {
            adopt_in(net, table, terminal, stage, node);
        }
    }
}

// The stage after one. Where the numbers have run out it is the first again, and no record carries one any longer.
pub(crate) fn stage_after(table: &mut Table, stage: u16) -> u16
    requires { StagesBelow (forest_of table.old) (stage + 1) }
    ensures trees { forest_of table.new ≡ restaged (forest_of table.old) (forest_of table.new).stage }
    ensures stages { StagesBelow (forest_of table.new) result }
{
    if stage == u16::MAX {
        table.forget_stages();
        return 1;
    }
    stage + 1
}

// The tree of an orphan.
fn orphan_tree(work: &Work) -> Option<Terminal>
    ensures { OrphanOf work.now result }
{
    work.tree
        .terminal()
        .filter(|_| work.parent == Parent::Orphan)
}
