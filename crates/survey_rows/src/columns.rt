//! The columns of a survey.

ghost use Rattle.std.specs.Prelude.{◌≡◌, IfSome};
ghost use Rattle.survey_rows.specs.Columns.{name_of};

/// A column of a survey.
#[derive(Clone, Copy, PartialEq, Eq, Drop)]
pub enum Column {
    /// The path of the image's file, or of the folder.
    File,
    /// `ok`, the code of the refusal, `unreadable` or `memory`.
    Verdict,
    /// The slot at which the image is refused.
    Slot,
    /// Says how many slots the code has.
    Slots,
    /// Says how many map rows the image has.
    Maps,
    /// The most steps of any run.
    Bound,
    /// Says how many instructions were explored.
    Explored,
    /// Says how many abstract states were stored.
    Stored,
    /// Says how many instructions the longest path of the search has.
    Deepest,
    /// Says how many bytes the stored states take, without those that they share.
    StoredBytes,
    /// Says how long `verify` took.
    Milliseconds,
    /// The length of the proof table.
    TableBytes,
    /// Says how long it took to make the proof table.
    ProveMilliseconds,
    /// Says how long `recheck` took.
    RecheckMilliseconds,
}

/// All columns, in their order.
pub const COLUMNS: [Column; 14] = [
    Column::File,
    Column::Verdict,
    Column::Slot,
    Column::Slots,
    Column::Maps,
    Column::Bound,
    Column::Explored,
    Column::Stored,
    Column::Deepest,
    Column::StoredBytes,
    Column::Milliseconds,
    Column::TableBytes,
    Column::ProveMilliseconds,
    Column::RecheckMilliseconds,
];

impl Column {
    /// Its name, which is in the head.
    pub fn name(self) -> &'static str
        ensures { result.now ≡ name_of self }
    {
        match self {
            Column::File => "file",
            Column::Verdict => "verdict",
            Column::Slot => "slot",
            Column::Slots => "slots",
            Column::Maps => "maps",
            Column::Bound => "bound",
            Column::Explored => "explored",
            Column::Stored => "stored",
            Column::Deepest => "deepest",
            Column::StoredBytes => "stored_bytes",
            Column::Milliseconds => "milliseconds",
            Column::TableBytes => "table_bytes",
            Column::ProveMilliseconds => "prove_milliseconds",
            Column::RecheckMilliseconds => "recheck_milliseconds",
        }
    }

    /// The column with a name.
    pub fn named(name: &str) -> Option<Column>
        ensures { IfSome result (λ column. name_of column ≡ name.now) }
    {
        for column in COLUMNS {
            if column.name() == name {
                return Some(column);
            }
        }
        None
    }

    /// Returns whether it is a time, which a second survey need not repeat.
    pub fn is_time(self) -> bool {
        matches!(
            self,
            Column::Milliseconds | Column::ProveMilliseconds | Column::RecheckMilliseconds
        )
    }

    /// Returns whether only a survey that writes proof tables has it.
    pub fn is_of_proof_tables(self) -> bool {
        matches!(
            self,
            Column::TableBytes | Column::ProveMilliseconds | Column::RecheckMilliseconds
        )
    }

    /// Its width in the text for people, in characters: enough for its name, and for all its cells
    /// except the path of a file.
    pub fn width(self) -> usize {
        match self {
            Column::Verdict => "unreadable".len(),
            Column::Slot | Column::Slots => "65535".len(),
            Column::Bound => "1000000".len(),
            _ => self.name().len(),
        }
    }
}
