// The rule set that was admitted, in the form that the later steps use, and what a run of it is given (document 01, "Operations": each begins with Admit; Run;
// document 02, K1).
ghost use Rattle.std.specs.Prelude.{◌≡◌, ◌+◌, ◌≤◌, length, get_or};
ghost use Rattle.tables.specs.Layout.{label_count, function_count};
ghost use Rattle.declarations.specs.Directory.{row_width};

use cells::Functions;

/// An admitted rule set: its functions, and the tables that they belong to.
#[derive(Clone, Copy)]
pub struct Admitted<'a> {
    /// Its attribute functions, with the stream's words that they and all processes are in.
    pub functions: Functions<'a>,
    /// The tables that declare it.
    pub tables: &'a [u32],
    pub ghost labels_counted: { functions.width ≡ row_width (label_count tables.now) },
    pub ghost functions_counted: { functions.count ≡ function_count tables.now },
    pub ghost few_cells: { functions.cells ≤ 1024 },
}

/// What is run: an admitted rule set's main, by the numbers of moves, each with its card reader.
#[derive(Clone, Copy)]
pub struct Course<'a, 'b> {
    pub rules: Admitted<'a>,
    /// Main's reach: no term of the run has more words.
    pub reach: usize,
    /// The numbers, two bytes each, and after each its reader, two bytes more.
    pub list: &'b [u8],
}

impl<'a> Admitted<'a> {
    /// The rule set of these words, tables and directory, with this number of cells.
    // Stays: what is asked are the facts of the fields that are made here and in `Functions`; after that only public functions of the words alone ask for one.
    pub fn of(
        words: &'a [u16],
        tables: &'a [u32],
        directory: &'a [u32],
        cells: usize,
    ) -> Admitted<'a>
        requires { (length words.now ≤ 65535) × (cells ≤ 1024) × (label_count tables.now ≤ 64) × (function_count tables.now ≤ 16) }
        ensures stream { result.functions.words.now ≡ words.now }
        ensures declared { result.tables.now ≡ tables.now }
        ensures places { result.functions.directory.now ≡ directory.now }
        ensures memory { result.functions.cells ≡ cells }
    {
        Admitted {
            functions: Functions::of(words, tables, directory, cells),
            tables,
        }
    }
}
