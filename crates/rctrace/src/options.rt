//! What the arguments of the program ask for.

use rc_cli::{Request, Source, request_of};

/// Which call of the first process is refused.
#[derive(Clone, Copy)]
pub(crate) enum Refused {
    None,
    /// The one of this number, from 1 on.
    One(u64),
    /// Each in turn, in a run of its own.
    Each,
}

/// What the arguments ask for.
#[derive(Clone, Copy)]
pub(crate) struct Asked<'a> {
    /// The file that the calls are shown in; descriptor 2 if there is none.
    pub(crate) out: Option<&'a str>,
    pub(crate) refused: Refused,
    /// How long a run may take, in seconds, if it was told.
    pub(crate) seconds: Option<u32>,
    /// The directory that the script runs in.
    pub(crate) directory: Option<&'a str>,
    /// Whether a whole environment is shown.
    pub(crate) environment: bool,
    /// Whether images are shown.
    pub(crate) images: bool,
    /// The name of this process, if another one has started it.
    pub(crate) process: Option<&'a str>,
    /// The arguments of the shell.
    pub(crate) arguments: &'a [String],
}

impl<'a> Asked<'a> {
    /// What these arguments ask for, with the request of the shell: `None` for a wrong use. The name of a process is
    /// the last option.
    pub(crate) fn of(arguments: &'a [String]) -> Option<(Asked<'a>, Request<'a>)> {
        let mut asked = Asked {
            out: None,
            refused: Refused::None,
            seconds: None,
            directory: None,
            environment: false,
            images: false,
            process: None,
            arguments,
        };
        for _ in 0..arguments.len() {
            let others = match asked.arguments {
                [flag, others @ ..] if is_flag(flag) => {
                    asked.set(flag);
                    others
                }
                [option, value, others @ ..] if is_option(option) => {
                    asked.take(option, value)?;
                    others
                }
                _ => break,
            };
            asked.arguments = others;
            if asked.process.is_some() {
                break;
            }
        }
        let request = request_of(asked.arguments)?;
        if asked.fits(request.source) {
            Some((asked, request))
        } else {
            None
        }
    }

    /// Takes an option without a value.
    fn set(&mut self, flag: &str) {
        if flag == "-E" {
            self.environment = true;
        } else {
            self.images = true;
        }
    }

    /// Takes an option with its value; `None` if it can't have this one.
    fn take(&mut self, option: &str, value: &'a str) -> Option<()> {
        match option {
            "-o" => self.out = Some(value),
            "-r" => self.refused = refused_call(value)?,
            "-t" => self.seconds = Some(positive(value)?),
            "-d" => self.directory = Some(value),
            "-p" => self.process = Some(value),
            _ => return None,
        }
        Some(())
    }

    /// Whether a script of this source can be run so. To refuse each call takes several runs: of a text or a file, in
    /// copies of a directory, without a file for the calls of one run. Only these runs can be bounded.
    fn fits(&self, source: Source<'_>) -> bool {
        match self.refused {
            Refused::None | Refused::One(_) => self.seconds.is_none(),
            Refused::Each => {
                matches!(source, Source::Text(_) | Source::File(_))
                    && self.directory.is_some()
                    && self.out.is_none()
            }
        }
    }
}

fn is_flag(word: &str) -> bool {
    matches!(word, "-E" | "-S")
}

fn is_option(word: &str) -> bool {
    matches!(word, "-o" | "-r" | "-t" | "-d" | "-p")
}

/// Which call is refused by `all` or by a number.
fn refused_call(value: &str) -> Option<Refused> {
    if value == "all" {
        return Some(Refused::Each);
    }
    match value.parse::<u64>() {
        Ok(number) if number > 0 => Some(Refused::One(number)),
        _ => None,
    }
}

fn positive(value: &str) -> Option<u32> {
    match value.parse::<u32>() {
        Ok(number) if number > 0 => Some(number),
        _ => None,
    }
}
