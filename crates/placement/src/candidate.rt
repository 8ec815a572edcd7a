// A processor that can take the new row, as a placement rule sees it.
#[derive(Clone, Copy)]
pub struct Candidate {
    pub processor: u8,
    pub spare: i32,
    pub rows: u8,
}
