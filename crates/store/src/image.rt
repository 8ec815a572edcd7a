// An image whose header is sound: its bytes, and how many chain heads and records it has.
ghost use Rattle.std.specs.Prelude.{◌≡◌, ◌≤◌, length};
ghost use Rattle.store.specs.Header.{image_length};

#[derive(Clone, Copy)]
pub struct Image<'a> {
    pub bytes: &'a [u8],
    pub processors: usize,
    pub records: usize,
    ghost eight: { processors ≤ 8 },
    ghost few: { records ≤ 256 },
    ghost whole: { length bytes.now ≡ image_length processors records },
}
