//! Advice for known mistakes: what was probably meant.

use crate::bytes::after;
use std::fmt;

/// What was probably meant. It is shown as a line of advice.
#[derive(Clone, Copy)]
pub struct Advice {
    /// A name for rows of tests.
    pub name: &'static str,
    words: &'static str,
    /// The line that it speaks of.
    pub line: Option<usize>,
}

impl Advice {
    /// A quote is open.
    pub const QUOTE: Advice = Advice {
        name: "Quote",
        words: "a quote goes on to the next one; quote the word and double each quote in it, as in 'don''t'",
        line: None,
    };
    /// A here document has no line that is its mark.
    pub const HERE_MARK: Advice = Advice {
        name: "HereMark",
        words: "the last line of a here document is its mark alone, without blanks",
        line: None,
    };
    /// `<<-MARK`.
    pub const HERE_DASH: Advice = Advice {
        name: "HereDash",
        words: "write <<END for <<-END, and the last line without blanks before its mark",
        line: None,
    };
    /// `<<"MARK"`.
    pub const HERE_QUOTED: Advice = Advice {
        name: "HereQuoted",
        words: "write <<'END' for <<\"END\" and <<\\END",
        line: None,
    };
    /// `<<<`.
    pub const HERE_TEXT: Advice = Advice {
        name: "HereText",
        words: "write echo text | command for command <<<text",
        line: None,
    };
    /// There is no such descriptor.
    pub const DESCRIPTOR: Advice = Advice {
        name: "Descriptor",
        words: "the descriptors are [0] after < and <<, [1] and [2] after > >> and |, and >[1=2] and >[2=1]",
        line: None,
    };
    /// There is something between an `if` and its `if not`.
    pub const IF_NOT: Advice = Advice {
        name: "IfNot",
        words: "`if not` directly follows an `if` and its command; put all of that into braces",
        line: None,
    };
    /// The line ends in a carriage return.
    pub const CARRIAGE_RETURN: Advice = Advice {
        name: "CarriageReturn",
        words: "the line ends in a carriage return; remove them all, as with tr -d '\\r'",
        line: None,
    };
    /// A word has an `=` without quotes.
    pub const EQUALS: Advice = Advice {
        name: "Equals",
        words: "an `=` without quotes assigns, before a command; quote the word, as in 'CC=gcc'",
        line: None,
    };
    /// `!=`.
    pub const NOT_EQUAL: Advice = Advice {
        name: "NotEqual",
        words: "write ! ~ $x y for x != y",
        line: None,
    };
    /// `==`.
    pub const EQUAL: Advice = Advice {
        name: "Equal",
        words: "write ~ $x y for x == y",
        line: None,
    };
    /// `=~`.
    pub const MATCH_OPERATOR: Advice = Advice {
        name: "MatchOperator",
        words: "write ~ $x pattern for =~, or use grep",
        line: None,
    };
    /// `test x = y`.
    pub const TEST_EQUALS: Advice = Advice {
        name: "TestEquals",
        words: "write ~ $x y for test x = y, or quote the '='",
        line: None,
    };
    /// `x := y`.
    pub const COLON_EQUALS: Advice = Advice {
        name: "ColonEquals",
        words: "write x=value for x := value",
        line: None,
    };
    /// `x += y`.
    pub const PLUS_EQUALS: Advice = Advice {
        name: "PlusEquals",
        words: "write x=($x y) for x += y with a list, and x=`{expr $x + 1} for x += 1",
        line: None,
    };
    /// `x ?= y`.
    pub const UNLESS_SET: Advice = Advice {
        name: "UnlessSet",
        words: "write if(~ $#x 0) x=value for x ?= value",
        line: None,
    };
    /// `x(1)=y`.
    pub const PLACE_EQUALS: Advice = Advice {
        name: "PlaceEquals",
        words: "a list is assigned as a whole, as in x=(new $x(2-))",
        line: None,
    };
    /// `x=` without a value.
    pub const NO_VALUE: Advice = Advice {
        name: "NoValue",
        words: "write x='' for an empty text, and x=() for an empty list",
        line: None,
    };
    /// `alias x=y`.
    pub const ALIAS: Advice = Advice {
        name: "Alias",
        words: "write fn name {command $*} for alias name=command",
        line: None,
    };
    /// `for(i=0; i<9; i++)`.
    pub const COUNTING: Advice = Advice {
        name: "Counting",
        words: "write for(i in `{seq 9}) for a loop that counts",
        line: None,
    };
    /// `for(i a b)`.
    pub const FOR_IN: Advice = Advice {
        name: "ForIn",
        words: "write for(i in a b)",
        line: None,
    };
    /// A variable is declared.
    pub const DECLARATION: Advice = Advice {
        name: "Declaration",
        words: "a variable is assigned by `x=value` alone, and each command is given it",
        line: None,
    };
    /// `2>&1` or `>&2`.
    pub const COPY: Advice = Advice {
        name: "Copy",
        words: "write >[2=1] for 2>&1, and >[1=2] for >&2",
        line: None,
    };
    /// `$(date)`.
    pub const SUBSTITUTION: Advice = Advice {
        name: "Substitution",
        words: "write `{date} for $(date)",
        line: None,
    };
    /// `$((1+2))`.
    pub const ARITHMETIC: Advice = Advice {
        name: "Arithmetic",
        words: "there is no arithmetic; write `{expr 1 + 2} for $((1+2))",
        line: None,
    };
    /// `${x}`.
    pub const BRACED_NAME: Advice = Advice {
        name: "BracedName",
        words: "write $x for ${x}, and $x^.c to join it with what follows",
        line: None,
    };
    /// `${x:-y}`.
    pub const DEFAULT: Advice = Advice {
        name: "Default",
        words: "write if(~ $#x 0) x=value before, for ${x:-value}",
        line: None,
    };
    /// `${x:1:2}`.
    pub const PART: Advice = Advice {
        name: "Part",
        words: "write $x(2-) for a part of a list, and `{echo $x | cut -c 2-3} for one of a text",
        line: None,
    };
    /// `${!x}`.
    pub const INDIRECT: Advice = Advice {
        name: "Indirect",
        words: "write $$x for the variable that $x names, for ${!x}",
        line: None,
    };
    /// `${x^^}`.
    pub const LETTERS: Advice = Advice {
        name: "Letters",
        words: "write `{echo $x | tr a-z A-Z} for ${x^^}",
        line: None,
    };
    /// `$<`.
    pub const LINE_READ: Advice = Advice {
        name: "LineRead",
        words: "write `{sed -u 1q} for a line that is read, and the name of the file in a recipe, for $<",
        line: None,
    };
    /// `${#x}`.
    pub const LENGTH: Advice = Advice {
        name: "Length",
        words: "write $#x for the number of members, for ${#x}",
        line: None,
    };
    /// `${x%.c}`.
    pub const TRIMMED: Advice = Advice {
        name: "Trimmed",
        words: "write `{basename $x .c} or use sed, for ${x%.c}",
        line: None,
    };
    /// `${x[1]}`.
    pub const MEMBER: Advice = Advice {
        name: "Member",
        words: "write $x(1) for a member, and $x for all, for ${x[..]}",
        line: None,
    };
    /// `$?`.
    pub const LAST_STATUS: Advice = Advice {
        name: "LastStatus",
        words: "write if(command) .., or ~ $status '' for the success that $? has as 0",
        line: None,
    };
    /// `$@` or `$#`.
    pub const PARAMETER: Advice = Advice {
        name: "Parameter",
        words: "write $* for $@, and $#* for $#",
        line: None,
    };
    /// `$!`.
    pub const LAST_JOB: Advice = Advice {
        name: "LastJob",
        words: "write wait $apid for wait $!; for kill, let the process write down its number",
        line: None,
    };
    /// `$$`.
    pub const PROCESS_NUMBER: Advice = Advice {
        name: "ProcessNumber",
        words: "there is no $$: write `{mktemp -d} for a fresh name",
        line: None,
    };
    /// `$^x`.
    pub const FLAT: Advice = Advice {
        name: "Flat",
        words: "write $\"x for one text",
        line: None,
    };
    /// A `$` at the end of a word.
    pub const LONE_DOLLAR: Advice = Advice {
        name: "LoneDollar",
        words: "a $ has a name after it; quote it if it is a text: '$'",
        line: None,
    };
    /// A command between backquotes.
    pub const BACKQUOTE: Advice = Advice {
        name: "Backquote",
        words: "write `{date} for a command between backquotes",
        line: None,
    };
    /// A backquote at the end of a line.
    pub const CONTINUATION: Advice = Advice {
        name: "Continuation",
        words: "write a backslash at the end of a line that goes on in the next one",
        line: None,
    };
    /// A command between braces after a backquote and a text.
    pub const LISTED_OUTPUT: Advice = Advice {
        name: "ListedOutput",
        words: "write ifs=: {x=`{command}} for x=`` (:) {command} and x=`:{command}",
        line: None,
    };
    /// `((x > 3))`.
    pub const COMPARISON: Advice = Advice {
        name: "Comparison",
        words: "write test $x -gt 3 for x > 3; parentheses hold a list of words",
        line: None,
    };
    /// The head of a control form without parentheses.
    pub const HEAD: Advice = Advice {
        name: "Head",
        words: "what follows `if`, `while` and `for` stands in parentheses, as in if(test -f x)",
        line: None,
    };
    /// `case x in a)`.
    pub const CASE: Advice = Advice {
        name: "Case",
        words: "write switch(x) { case a; .. } for case x in a) .. esac",
        line: None,
    };
    /// `case a | b` or `~ $x (a|b)`.
    pub const PATTERNS: Advice = Advice {
        name: "Patterns",
        words: "write patterns one after the other, as in case a b and ~ $x a b",
        line: None,
    };
    /// `(ls | wc)` as an argument.
    pub const LISTED_COMMAND: Advice = Advice {
        name: "ListedCommand",
        words: "write `{a | b} for the output of commands; parentheses hold a list of words",
        line: None,
    };
    /// A word directly after braces.
    pub const AFTER_BRACES: Advice = Advice {
        name: "AfterBraces",
        words: "a command ends with its braces; write ; or a newline before the next one",
        line: None,
    };
    /// A command in the braces of a `switch`, before the first `case`.
    pub const NO_CASE: Advice = Advice {
        name: "NoCase",
        words: "the first line in the braces of a `switch` begins with `case`",
        line: None,
    };
    /// `f() {` or `function f {`.
    pub const FUNCTION: Advice = Advice {
        name: "Function",
        words: "write fn f { .. } to define a function",
        line: None,
    };
    /// `else`, or an `if not` on the line of its `if`.
    pub const ELSE: Advice = Advice {
        name: "Else",
        words: "write `if not` for `else`, on a line of its own or after a `;`",
        line: None,
    };
    /// An operator begins a line.
    pub const LINE_END: Advice = Advice {
        name: "LineEnd",
        words: "an operator that goes on with the next line stands at the end of its own line",
        line: None,
    };
    /// Commands in parentheses.
    pub const SUBSHELL: Advice = Advice {
        name: "Subshell",
        words: "write @{ .. } for a subshell; parentheses hold a list of words",
        line: None,
    };
    /// A redirection to a command.
    pub const PROCESS: Advice = Advice {
        name: "Process",
        words: "redirections have files; run the command first, and write its output into one",
        line: None,
    };
    /// `|&`.
    pub const BOTH_OUTPUTS: Advice = Advice {
        name: "BothOutputs",
        words: "write a >[2=1] | b for a |& b",
        line: None,
    };
    /// `>|`.
    pub const CLOBBER: Advice = Advice {
        name: "Clobber",
        words: "write >file for >|file",
        line: None,
    };
    /// `<>`.
    pub const READ_WRITE: Advice = Advice {
        name: "ReadWrite",
        words: "write <file or >file for <>file",
        line: None,
    };
    /// `{}` as an argument.
    pub const EMPTY_BRACES: Advice = Advice {
        name: "EmptyBraces",
        words: "quote the braces: '{}'",
        line: None,
    };
    /// `{a,b}`.
    pub const ALTERNATIVES: Advice = Advice {
        name: "Alternatives",
        words: "write (a b) for {a,b}, and x^(a b) to join each with what is beside",
        line: None,
    };
    /// `{1..9}`.
    pub const SEQUENCE: Advice = Advice {
        name: "Sequence",
        words: "write `{seq 9} for {1..9}",
        line: None,
    };
    /// A brace among the arguments of a command.
    pub const BRACE: Advice = Advice {
        name: "Brace",
        words: "braces hold commands; quote the word, or end the command before by ; or a newline",
        line: None,
    };
    /// An operator without a command after it.
    pub const NO_OPERAND: Advice = Advice {
        name: "NoOperand",
        words: "there is no command after the operator",
        line: None,
    };
    /// An operator without a command before it.
    pub const NO_COMMAND: Advice = Advice {
        name: "NoCommand",
        words: "there is no command before the operator",
        line: None,
    };
    /// A redirection without a file.
    pub const NO_FILE: Advice = Advice {
        name: "NoFile",
        words: "a file follows < and >; quote the operator if it is a text: '>'",
        line: None,
    };
    /// `not` without its `if`.
    pub const NOT: Advice = Advice {
        name: "Not",
        words: "write ! command for not command; `if not` follows an `if` and its command",
        line: None,
    };
    /// `~` without a word.
    pub const NO_SUBJECT: Advice = Advice {
        name: "NoSubject",
        words: "write ~ $x pattern .., with what is compared first",
        line: None,
    };
    /// A caret that joins nothing.
    pub const LONE_CARET: Advice = Advice {
        name: "LoneCaret",
        words: "a caret joins the words before and after it; quote it if it is a text: '^'",
        line: None,
    };
    /// A `switch` without its parentheses or braces.
    pub const SWITCH: Advice = Advice {
        name: "Switch",
        words: "write switch($x) { and on the next line case pattern ..",
        line: None,
    };
    /// A bracket closes nothing.
    pub const UNOPENED: Advice = Advice {
        name: "Unopened",
        words: "nothing is open here that it could close",
        line: None,
    };
    /// The first word begins with a byte order mark.
    pub const ORDER_MARK: Advice = Advice {
        name: "OrderMark",
        words: "the script begins with a byte order mark; remove it, as with tail -c +4",
        line: None,
    };

    /// A bracket that was opened in this line is not closed.
    pub(crate) fn unclosed(line: usize) -> Advice {
        Advice {
            name: "Unclosed",
            words: "a bracket is not closed that was opened in line ",
            line: Some(line),
        }
    }

    /// What to write in place of a command of other shells.
    pub(crate) fn foreign(instead: &'static str) -> Advice {
        Advice {
            name: "Foreign",
            words: instead,
            line: None,
        }
    }

    /// The advice for a here document that begins this text and has no line that is its mark.
    pub fn of_mark(text: Option<&[u8]>) -> Advice {
        let text = text.unwrap_or(b"");
        if text.starts_with(b"<<-") {
            Advice::HERE_DASH
        } else if is_quoted_mark(text) {
            Advice::HERE_QUOTED
        } else {
            Advice::HERE_MARK
        }
    }
}

/// Whether a text begins with `<<` and a mark that is quoted as in other shells.
fn is_quoted_mark(text: &[u8]) -> bool {
    for byte in after(text, 2) {
        match *byte {
            b' ' | b'\t' => {}
            found => return matches!(found, b'"' | b'\\'),
        }
    }
    false
}

impl fmt::Display for Advice {
    fn fmt<W: fmt::Write>(&self, f: &mut fmt::Formatter<W>) -> fmt::Result {
        f.write_str(self.words)?;
        match self.line {
            Some(line) => write!(f, "{line}"),
            None => Ok(()),
        }
    }
}
