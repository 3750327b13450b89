// The answer for a book, and its text.
ghost use Rattle.std.specs.Prelude.{Some};
ghost use Rattle.engine.specs.Texts.{answer_text};
ghost use Rattle.engine.specs.Values.{answer_of};

use network::Mark;
use sheet::Counts;
use std::fmt;

// A book's best plans.
#[derive(PartialEq, Eq, Debug, Drop)]
pub struct Plan {
    pub counts: Counts,
    // what the cheapest selections cost, and the net of the best plans
    pub least: u64,
    pub net: u64,
    // what the best plans say of each entry, in order of number
    pub marks: Vec<Mark>,
}

impl fmt::Display for Plan {
    ghost output = { λ p. Some (answer_text (answer_of p)) };

    fn fmt<W: fmt::Write>(&self, f: &mut fmt::Formatter<W>) -> fmt::Result {
        write!(
            f,
            "{}\nleast {} net {}\n",
            self.counts, self.least, self.net
        )?;
        for (entry, mark) in self.marks.iter().enumerate() {
            write!(f, "{entry} {mark}\n")?;
        }
        Ok(())
    }
}
