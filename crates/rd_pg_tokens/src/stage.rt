ghost use Rattle.std.specs.Prelude.{◌≡◌};
ghost use Rattle.rd_pg_tokens.specs.Pieces.{is_soft};
ghost use Rattle.rd_pg_tokens.specs.Stages.{stage_of, mode_of, left_of};

/// How a part of a message counts.
#[derive(Clone, Copy, Debug, PartialEq, Eq)]
pub enum Shown {
    AsSoft,
    AsFirm,
    /// In no token.
    Passed,
}

impl Shown {
    pub(crate) fn is_soft(self) -> bool
        ensures { result ≡ is_soft self }
    {
        match self {
            Shown::AsSoft => true,
            Shown::AsFirm | Shown::Passed => false,
        }
    }
}

/// Which part of a message's content is due.
#[derive(Clone, Copy, Debug, PartialEq, Eq)]
pub enum Stage {
    /// Bytes of which nothing is said.
    Raw,
    AuthenticationCode,
    ParameterName,
    ParameterValue(Shown),
    Status,
    ColumnCount,
    /// The name of a column, and so many columns are left.
    ColumnName(u32),
    /// The table of a column and its number there.
    ColumnPlace(u32),
    /// The type of a column, its size, its modifier and its format.
    ColumnType(u32),
    ValueCount,
    /// A value with its length, and so many values are left.
    Value(u32),
    Tag,
    FieldCode,
    FieldText(Shown),
    /// A text that is cut into words.
    Text,
    /// Words of a text that has so many bytes left.
    Words(u32),
    StatementName,
    Portal,
    BoundStatement,
    Formats,
    /// The length of a password message and the password.
    Password,
    PacketCode,
    StartupName,
    StartupValue,
}

impl Stage {
    /// The stage that these numbers of a cursor stand for.
    pub fn of(mode: u8, left: u32) -> Stage
        ensures { result ≡ stage_of mode left }
    {
        match mode {
            2 => Stage::AuthenticationCode,
            3 => Stage::ParameterName,
            4 => Stage::ParameterValue(Shown::AsSoft),
            5 => Stage::ParameterValue(Shown::AsFirm),
            6 => Stage::ParameterValue(Shown::Passed),
            7 => Stage::Status,
            8 => Stage::ColumnCount,
            9 => Stage::ColumnName(left),
            10 => Stage::ColumnPlace(left),
            11 => Stage::ColumnType(left),
            12 => Stage::ValueCount,
            13 => Stage::Value(left),
            14 => Stage::Tag,
            15 => Stage::FieldCode,
            16 => Stage::FieldText(Shown::AsSoft),
            17 => Stage::FieldText(Shown::AsFirm),
            18 => Stage::FieldText(Shown::Passed),
            19 => Stage::Text,
            20 => Stage::Words(left),
            21 => Stage::StatementName,
            22 => Stage::Portal,
            23 => Stage::BoundStatement,
            24 => Stage::Formats,
            25 => Stage::Password,
            26 => Stage::PacketCode,
            27 => Stage::StartupName,
            28 => Stage::StartupValue,
            _ => Stage::Raw,
        }
    }

    pub fn mode(self) -> u8
        ensures { result ≡ mode_of self }
    {
        match self {
            Stage::Raw => 1,
            Stage::AuthenticationCode => 2,
            Stage::ParameterName => 3,
            Stage::ParameterValue(Shown::AsSoft) => 4,
            Stage::ParameterValue(Shown::AsFirm) => 5,
            Stage::ParameterValue(Shown::Passed) => 6,
            Stage::Status => 7,
            Stage::ColumnCount => 8,
            Stage::ColumnName(_) => 9,
            Stage::ColumnPlace(_) => 10,
            Stage::ColumnType(_) => 11,
            Stage::ValueCount => 12,
            Stage::Value(_) => 13,
            Stage::Tag => 14,
            Stage::FieldCode => 15,
            Stage::FieldText(Shown::AsSoft) => 16,
            Stage::FieldText(Shown::AsFirm) => 17,
            Stage::FieldText(Shown::Passed) => 18,
            Stage::Text => 19,
            Stage::Words(_) => 20,
            Stage::StatementName => 21,
            Stage::Portal => 22,
            Stage::BoundStatement => 23,
            Stage::Formats => 24,
            Stage::Password => 25,
            Stage::PacketCode => 26,
            Stage::StartupName => 27,
            Stage::StartupValue => 28,
        }
    }

    pub fn left(self) -> u32
        ensures { result ≡ left_of self }
    {
        match self {
            Stage::ColumnName(left)
            | Stage::ColumnPlace(left)
            | Stage::ColumnType(left)
            | Stage::Value(left)
            | Stage::Words(left) => left,
            _ => 0,
        }
    }
}
