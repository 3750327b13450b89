// One entry of a job list, as its line tells it. The names are those of the text.
#[derive(Debug, Drop)]
pub(crate) struct Entry<'a> {
    // the number of its line, from 1
    pub(crate) line: usize,
    pub(crate) name: &'a [u8],
    pub(crate) earning: u32,
    pub(crate) cost: u32,
    // the names of what it needs
    pub(crate) needs: Vec<&'a [u8]>,
}
