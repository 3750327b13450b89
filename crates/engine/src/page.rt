// The listing of an input.
use super::answer::Plan;
use super::refusal::PlanRefusal;

#[derive(PartialEq, Eq, Debug, Drop)]
pub struct Listing {
    pub answer: Result<Plan, PlanRefusal>,
    // the lines that tell the answer, each with its line feed
    pub text: String,
}
