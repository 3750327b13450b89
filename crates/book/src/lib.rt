// The order book: open while entries and needs come in, then sealed, over one borrowed table.
#![tactic(auto)]

mod answering;
mod asking;
mod entering;
mod held;
mod open;
mod record;
mod refusal;
mod sealed;
mod sealing;

pub use open::OpenBook;
pub use record::Record;
pub use refusal::{EnterRefusal, MOST_AMOUNT, MOST_ENTRIES, MOST_NEEDS, NeedRefusal};
pub use sealed::SealedBook;
