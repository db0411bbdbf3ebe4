// An opened file (document 01, "Blocks and the rule stream"; refusals 1 to 3).
ghost use Rattle.std.specs.Prelude.{◌≡◌, ◌*◌, ◌≤◌, length};
ghost use Rattle.blocks.specs.Files.{Opens};

/// An opened file: 1 to 64 whole blocks, each with its number and its sums, of this edition.
#[derive(Clone, Copy)]
pub struct Blocks<'a> {
    /// The file.
    pub bytes: &'a [u8],
    /// How many blocks it has.
    pub count: usize,
    pub ghost whole: { length bytes.now ≡ 512 * count },
    pub ghost some: { 1 ≤ count },
    pub ghost few: { count ≤ 64 },
    pub ghost opened: { Opens bytes.now },
}
