//! The commands, as a table. The code and the definitions read it, so a new command is a variant, a name and a row.

ghost use Rattle.std.specs.Prelude.{◌≡◌};
ghost use Rattle.requests.specs.Tasks.{files_of, gives_reason, name_of};

/// What a command does.
#[derive(Clone, Copy, PartialEq, Eq, Debug)]
pub enum Task {
    Check,
    Fault,
    Show,
    Value,
    Revenue,
    Normalise,
    Explain,
    Round,
    Lp,
    Compare,
    Diff,
    Duplicates,
    Sizes,
    Publish,
}

/// How many files a command reads.
#[derive(Clone, Copy, PartialEq, Eq, Debug)]
pub enum Files {
    One,
    Two,
    Many,
}

/// A command, and what it takes beside its files.
#[derive(Clone, Copy)]
pub struct TaskRow {
    pub task: Task,
    pub files: Files,
    /// The flags that round prices.
    pub rounding: bool,
    /// The limits of searches.
    pub limits: bool,
    /// The flag that chooses the bounded search. A command with limits and without this flag always uses that search.
    pub bound: bool,
    /// Words that name goods.
    pub goods: bool,
    /// Words that are the numbers of bids, or a list of them.
    pub bids: bool,
    /// The flag that refuses a price which would be rounded.
    pub exact: bool,
    /// The option that multiplies prices.
    pub times: bool,
    /// The flag for the files too that are the only ones of their auction, or the same auction in two folders.
    pub all: bool,
    /// The flag for a table in the place of groups.
    pub table: bool,
    /// The flag for NUL after each path of the output.
    pub null: bool,
    /// The folder in which texts are written.
    pub folder: bool,
}

/// A command on one text, which takes nothing else.
const ON_TEXT: TaskRow = TaskRow {
    task: Task::Round,
    files: Files::One,
    rounding: false,
    limits: false,
    bound: false,
    goods: false,
    bids: false,
    exact: false,
    times: false,
    all: false,
    table: false,
    null: false,
    folder: false,
};

/// A command on one bid file.
const ON_FILE: TaskRow = TaskRow {
    rounding: true,
    ..ON_TEXT
};

/// A command that searches one bid file.
const SEARCH: TaskRow = TaskRow {
    limits: true,
    ..ON_FILE
};

/// The commands, as the help lists them. A caller in C names a command by its place here, counted from 0.
pub const TASKS: [TaskRow; 14] = [
    TaskRow {
        task: Task::Check,
        ..ON_FILE
    },
    TaskRow {
        task: Task::Fault,
        files: Files::Many,
        ..ON_FILE
    },
    TaskRow {
        task: Task::Show,
        ..ON_FILE
    },
    TaskRow {
        task: Task::Value,
        bound: true,
        goods: true,
        ..SEARCH
    },
    TaskRow {
        task: Task::Revenue,
        bids: true,
        ..ON_FILE
    },
    TaskRow {
        task: Task::Normalise,
        bound: true,
        ..SEARCH
    },
    TaskRow {
        task: Task::Explain,
        ..SEARCH
    },
    TaskRow {
        task: Task::Round,
        exact: true,
        times: true,
        ..ON_TEXT
    },
    TaskRow {
        task: Task::Lp,
        ..ON_FILE
    },
    TaskRow {
        task: Task::Compare,
        files: Files::Two,
        bound: true,
        all: true,
        ..SEARCH
    },
    TaskRow {
        task: Task::Diff,
        files: Files::Two,
        ..SEARCH
    },
    TaskRow {
        task: Task::Duplicates,
        files: Files::Many,
        all: true,
        table: true,
        null: true,
        ..SEARCH
    },
    TaskRow {
        task: Task::Sizes,
        files: Files::Many,
        null: true,
        ..SEARCH
    },
    TaskRow {
        task: Task::Publish,
        files: Files::Many,
        all: true,
        folder: true,
        ..SEARCH
    },
];

/// The name of a command.
pub fn name_of(task: Task) -> &'static str
    ensures { result.now ≡ name_of task }
{
    match task {
        Task::Check => "check",
        Task::Fault => "fault",
        Task::Show => "show",
        Task::Value => "value",
        Task::Revenue => "revenue",
        Task::Normalise => "normalise",
        Task::Explain => "explain",
        Task::Round => "round",
        Task::Lp => "lp",
        Task::Compare => "compare",
        Task::Diff => "diff",
        Task::Duplicates => "duplicates",
        Task::Sizes => "sizes",
        Task::Publish => "publish",
    }
}

/// How many files a command reads.
pub fn files_of(task: Task) -> Files
    ensures { result ≡ files_of task }
{
    match task {
        Task::Compare | Task::Diff => Files::Two,
        Task::Fault | Task::Duplicates | Task::Sizes | Task::Publish => Files::Many,
        _ => Files::One,
    }
}

/// Whether a command says why a file cannot be opened.
pub fn gives_reason(task: Task) -> bool
    ensures { result ≡ gives_reason task }
{
    !matches!(
        task,
        Task::Check | Task::Show | Task::Value | Task::Normalise | Task::Compare
    )
}
