// What a processor carries: its rows, and the share that is left.
#[derive(Clone, Copy)]
pub struct Load {
    pub rows: u8,
    pub spare: i32,
}
