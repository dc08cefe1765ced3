//! The kinds of warnings.

/// A kind of what is accepted and seldom meant.
#[derive(Clone, Copy)]
pub struct WarningKind {
    /// The name by which a comment turns it off.
    pub name: &'static str,
    pub words: &'static str,
}

impl WarningKind {
    /// `&` in the text of a URL.
    pub const ADDRESS: WarningKind = WarningKind {
        name: "url",
        words: "the `&` ends the command here",
    };
    /// `~ $x a | b`.
    pub const ALTERNATIVE: WarningKind = WarningKind {
        name: "alternative",
        words: "`~` writes nothing into a pipe",
    };
    /// `~ $x a || '*.c'`.
    pub const NO_PATTERN_HERE: WarningKind = WarningKind {
        name: "alternative",
        words: "this is a command, and no further pattern",
    };
    /// `kill` is given `$apid`.
    pub const APID: WarningKind = WarningKind {
        name: "apid",
        words: "$apid is for `wait` alone and no number of a process",
    };
    /// `x=$x+1`.
    pub const ARITHMETIC: WarningKind = WarningKind {
        name: "arithmetic",
        words: "there is no arithmetic: this is a text",
    };
    /// `if(x = a)`.
    pub const ASSIGNS: WarningKind = WarningKind {
        name: "assigns",
        words: "an `=` in a condition assigns",
    };
    /// A backslash in a word.
    pub const BACKSLASH: WarningKind = WarningKind {
        name: "backslash",
        words: "a backslash is a character like any other",
    };
    /// A command is called `!~` or `!test`.
    pub const BANG: WarningKind = WarningKind {
        name: "bang",
        words: "this is the name of a command",
    };
    /// The first word begins with a byte order mark.
    pub const ORDER_MARK: WarningKind = WarningKind {
        name: "bom",
        words: "the script begins with a byte order mark",
    };
    /// `command &>file`.
    pub const BOTH: WarningKind = WarningKind {
        name: "both",
        words: "the `&` starts the command in the background, before the redirection",
    };
    /// `X= command word`.
    pub const BLANK: WarningKind = WarningKind {
        name: "blank",
        words: "the next word is the value",
    };
    /// `f(x)`.
    pub const CALL: WarningKind = WarningKind {
        name: "call",
        words: "a command has its words without parentheses",
    };
    /// A caret at the beginning of a word.
    pub const CARET: WarningKind = WarningKind {
        name: "caret",
        words: "a caret joins the words before and after it",
    };
    /// `case a:`.
    pub const CASE: WarningKind = WarningKind {
        name: "case",
        words: "the `:` is a part of the pattern",
    };
    /// `switch(x) {}`.
    pub const NO_CASE: WarningKind = WarningKind {
        name: "case",
        words: "a switch without a case runs nothing",
    };
    /// There is another `if` inside the branch before an `if not`.
    pub const CHANGED: WarningKind = WarningKind {
        name: "changed",
        words: "an `if` inside the braces before decides whether this runs",
    };
    /// `[^a]` or `[!a]`.
    pub const CLASS: WarningKind = WarningKind {
        name: "class",
        words: "this is no class of the characters that are not in it",
    };
    /// `path=/a:/b`.
    pub const COLON: WarningKind = WarningKind {
        name: "colon",
        words: "this is one directory, with a colon in its name",
    };
    /// `(a, b)`.
    pub const COMMA: WarningKind = WarningKind {
        name: "comma",
        words: "the comma is a part of the word",
    };
    /// `$p->name`.
    pub const ARROW: WarningKind = WarningKind {
        name: "compare",
        words: "this redirects to a file with this name",
    };
    /// A file whose name is a number.
    pub const COMPARE: WarningKind = WarningKind {
        name: "compare",
        words: "this redirects to or from a file with this name",
    };
    /// `switch(x)` with a variable `x`.
    pub const CONSTANT: WarningKind = WarningKind {
        name: "constant",
        words: "this is the text, and not the variable of this name",
    };
    /// A line ends in a carriage return.
    pub const CARRIAGE_RETURN: WarningKind = WarningKind {
        name: "cr",
        words: "lines end in a carriage return, which is a part of their last words",
    };
    /// `cd -`.
    pub const DASH: WarningKind = WarningKind {
        name: "dash",
        words: "this is a directory with the name -",
    };
    /// A number before a redirection is an argument.
    pub const DIGIT: WarningKind = WarningKind {
        name: "digit",
        words: "this number is an argument",
    };
    /// Double quotes.
    pub const DOUBLE: WarningKind = WarningKind {
        name: "double",
        words: "a double quote is a character like any other",
    };
    /// `if(x);`.
    pub const EMPTY: WarningKind = WarningKind {
        name: "empty",
        words: "this has no command, and what follows runs in any case",
    };
    /// `exec >file`.
    pub const EXEC: WarningKind = WarningKind {
        name: "exec",
        words: "without a command this redirects nothing but itself",
    };
    /// A word from other shells.
    pub const FOREIGN: WarningKind = WarningKind {
        name: "foreign",
        words: "this is no command here, but one of other shells",
    };
    /// `-name *.c`.
    pub const GLOB: WarningKind = WarningKind {
        name: "glob",
        words: "the files of this directory take the place of this pattern",
    };
    /// `a#b`.
    pub const HASH: WarningKind = WarningKind {
        name: "hash",
        words: "the rest of the line is a comment",
    };
    /// `#!/bin/rc -x`.
    pub const INTERPRETER: WarningKind = WarningKind {
        name: "interpreter",
        words: "the first line starts no such shell",
    };
    /// `$(date)` in a here document.
    pub const HERE: WarningKind = WarningKind {
        name: "here",
        words: "this stays as it is in a here document",
    };
    /// The redirections of a job don't cover the descriptors of its shell.
    pub const INSIDE: WarningKind = WarningKind {
        name: "inside",
        words: "the job keeps the descriptors that it redirects here only",
    };
    /// `kill %1`.
    pub const JOB: WarningKind = WarningKind {
        name: "job",
        words: "there are no numbers of jobs",
    };
    /// A condition that was false leaves its status.
    pub const LAST: WarningKind = WarningKind {
        name: "last",
        words: "if the condition is false, its status is left, which is a failure",
    };
    /// `x = a b`.
    pub const LIST: WarningKind = WarningKind {
        name: "list",
        words: "only the first word is the value, and the next one is called",
    };
    /// A quoted pattern.
    pub const LITERAL: WarningKind = WarningKind {
        name: "literal",
        words: "this is compared as a text, and is no pattern",
    };
    /// A variable with a quoted pattern, for a command that takes files.
    pub const NO_FILES: WarningKind = WarningKind {
        name: "literal",
        words: "a value is a text, and no pattern",
    };
    /// `for(f in '*.c')`.
    pub const ONE_WORD: WarningKind = WarningKind {
        name: "literal",
        words: "in quotes this is one word, and neither a pattern nor a list",
    };
    /// `@ x = a`.
    pub const LOST: WarningKind = WarningKind {
        name: "lost",
        words: "only the subshell, which ends here, has this value",
    };
    /// `$x:h`.
    pub const MODIFIER: WarningKind = WarningKind {
        name: "modifier",
        words: "this joins the text to each member",
    };
    /// An assignment to what is no name.
    pub const NAME: WarningKind = WarningKind {
        name: "name",
        words: "this is no name that a variable can have",
    };
    /// A pattern matches nothing.
    pub const NEVER: WarningKind = WarningKind {
        name: "never",
        words: "this pattern matches nothing",
    };
    /// `if not command &`.
    pub const NEVER_RUNS: WarningKind = WarningKind {
        name: "never",
        words: "the command of an `if not` in the background never runs",
    };
    /// `~ $x`.
    pub const NO_PATTERN: WarningKind = WarningKind {
        name: "never",
        words: "without a pattern nothing matches",
    };
    /// `if not(x)`.
    pub const NOT: WarningKind = WarningKind {
        name: "not",
        words: "`if not` runs what follows if the last condition was false",
    };
    /// A comment that turns off what doesn't exist.
    pub const OFF: WarningKind = WarningKind {
        name: "off",
        words: "there is no warning of this name, or no reason",
    };
    /// `x=(date)`.
    pub const OUTPUT: WarningKind = WarningKind {
        name: "output",
        words: "parentheses hold a list, and run nothing",
    };
    /// `fn f(x)`.
    pub const PARAMETERS: WarningKind = WarningKind {
        name: "parameters",
        words: "these are further names of functions",
    };
    /// `(cd x)`.
    pub const PARENTHESES: WarningKind = WarningKind {
        name: "parentheses",
        words: "parentheses hold a list, so this runs in the script itself",
    };
    /// `expr (1 + 2)`.
    pub const GROUP: WarningKind = WarningKind {
        name: "parentheses",
        words: "parentheses hold a list, and are not handed to the command",
    };
    /// `**`, or a pattern as of regular expressions.
    pub const PATTERN: WarningKind = WarningKind {
        name: "pattern",
        words: "patterns have only * and ? and classes",
    };
    /// `sudo f` with a function `f`.
    pub const PROGRAM: WarningKind = WarningKind {
        name: "program",
        words: "this starts programs, and knows no function of the script",
    };
    /// `$x(0)`.
    pub const PLACE: WarningKind = WarningKind {
        name: "place",
        words: "this selects nothing",
    };
    /// `/env/x`.
    pub const PLAN9: WarningKind = WarningKind {
        name: "plan9",
        words: "Linux has no such files",
    };
    /// `<(sort f)`.
    pub const PROCESS: WarningKind = WarningKind {
        name: "process",
        words: "a redirection needs one file, and this is a list",
    };
    /// Quotation marks as of print.
    pub const QUOTES: WarningKind = WarningKind {
        name: "quotes",
        words: "this is a character like any other, and quotes nothing",
    };
    /// `1..5`.
    pub const RANGE: WarningKind = WarningKind {
        name: "range",
        words: "this is one word",
    };
    /// `fn f`, and `{..}` on the next line.
    pub const REMOVED: WarningKind = WarningKind {
        name: "removed",
        words: "this removes the function, and the braces after it run at once",
    };
    /// `find -exec rm '{}' ;`.
    pub const SEMICOLON: WarningKind = WarningKind {
        name: "semicolon",
        words: "the `;` ends the command, and is not handed to it",
    };
    /// A function has the name of a signal.
    pub const SIGNAL: WarningKind = WarningKind {
        name: "signal",
        words: "signals call no function",
    };
    /// `$x*`.
    pub const STAR: WarningKind = WarningKind {
        name: "star",
        words: "the * belongs to the name of the variable",
    };
    /// `~ $status 0`.
    pub const STATUS: WarningKind = WarningKind {
        name: "status",
        words: "the status of success is the empty text",
    };
    /// `$x[1]`.
    pub const SUBSCRIPT: WarningKind = WarningKind {
        name: "subscript",
        words: "this joins the brackets to each member",
    };
    /// `if(-f x)`.
    pub const TEST: WarningKind = WarningKind {
        name: "test",
        words: "this is called as a command",
    };
    /// `test -f a and test -f b`.
    pub const JOINED: WarningKind = WarningKind {
        name: "test",
        words: "this is an argument, and joins no commands",
    };
    /// `[ -f x]`.
    pub const NO_BRACKET: WarningKind = WarningKind {
        name: "test",
        words: "the last argument of [ is a ] by itself",
    };
    /// `~/x`.
    pub const TILDE: WarningKind = WarningKind {
        name: "tilde",
        words: "a ~ is not the home directory",
    };
    /// Two words that touch.
    pub const TOUCHING: WarningKind = WarningKind {
        name: "touching",
        words: "no caret is put here, so these are two words",
    };
    /// The status of a `cd`, `.` or `eval` before an `rm` is not checked.
    pub const UNASKED: WarningKind = WarningKind {
        name: "unasked",
        words: "if this fails, the `rm` after it runs all the same",
    };
    /// `test -n $x`.
    pub const UNQUOTED: WarningKind = WarningKind {
        name: "unquoted",
        words: "without a value there is no argument, and the test is true",
    };
    /// No `wait` waits for a job.
    pub const UNWAITED: WarningKind = WarningKind {
        name: "unwaited",
        words: "no `wait` waits for this job",
    };
    /// `IFS=:`.
    pub const UPPER: WarningKind = WarningKind {
        name: "upper",
        words: "this shell does not read this variable",
    };
    /// A variable that other shells set.
    pub const VARIABLE: WarningKind = WarningKind {
        name: "variable",
        words: "no shell of this kind sets this variable",
    };
    /// `%PATH%`.
    pub const PERCENT: WarningKind = WarningKind {
        name: "variable",
        words: "this is a text, and the value of no variable",
    };
    /// `$0` is used.
    pub const ZERO: WarningKind = WarningKind {
        name: "zero",
        words: "$0 is always empty",
    };
}

/// The names of all kinds.
pub(crate) const NAMES: [&str; 66] = [
    "alternative",
    "apid",
    "arithmetic",
    "assigns",
    "backslash",
    "bang",
    "blank",
    "bom",
    "both",
    "call",
    "caret",
    "case",
    "changed",
    "class",
    "colon",
    "comma",
    "compare",
    "constant",
    "cr",
    "dash",
    "digit",
    "double",
    "empty",
    "exec",
    "foreign",
    "glob",
    "hash",
    "here",
    "inside",
    "interpreter",
    "job",
    "last",
    "list",
    "literal",
    "lost",
    "modifier",
    "name",
    "never",
    "not",
    "off",
    "output",
    "parameters",
    "parentheses",
    "pattern",
    "place",
    "plan9",
    "process",
    "program",
    "quotes",
    "range",
    "removed",
    "semicolon",
    "signal",
    "star",
    "status",
    "subscript",
    "test",
    "tilde",
    "touching",
    "unasked",
    "unquoted",
    "unwaited",
    "upper",
    "url",
    "variable",
    "zero",
];
