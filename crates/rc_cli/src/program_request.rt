//! The requests that the arguments of the program make.
ghost use Rattle.std.specs.Prelude.{◌≡◌, map, option_map, string_bytes};
ghost use Rattle.rc_cli.specs.Asked.{asked};
ghost use Rattle.rc_cli.specs.Requests.{request_of, request_of_script, is_option};

/// Where a script comes from.
#[derive(Clone, Copy)]
pub enum Source<'a> {
    /// Standard input.
    Input,
    /// An argument, after `-c`.
    Text(&'a str),
    /// The file with this name.
    File(&'a str),
    /// An image, whose words come first among the arguments.
    Image,
}

/// A script with its arguments.
#[derive(Clone, Copy)]
pub struct Request<'a> {
    /// Whether a simple command that fails ends the shell.
    pub strict: bool,
    pub source: Source<'a>,
    pub arguments: &'a [String],
}

fn is_option(word: &str) -> bool
    ensures { result ≡ is_option word.now }
{
    word.starts_with('-')
}

/// Parses `[-c text | file] [arg ...]`, or `-S` and the words of an image.
fn request_of_script(strict: bool, arguments: &[String]) -> Option<Request<'_>>
    ensures { option_map asked result ≡ request_of_script strict (map string_bytes arguments.now) }
{
    let (source, arguments) = match arguments {
        [] => (Source::Input, arguments),
        [first, others @ ..] if first.as_str() == "-c" => {
            let (text, arguments) = others.split_first()?;
            (Source::Text(text), arguments)
        }
        [first, arguments @ ..] if first.as_str() == "-S" => (Source::Image, arguments),
        [first, ..] if is_option(first) => return None,
        [file, arguments @ ..] => (Source::File(file), arguments),
    };
    Some(Request {
        strict,
        source,
        arguments,
    })
}

/// Parses the arguments of the program: `None` for wrong usage.
pub fn request_of(arguments: &[String]) -> Option<Request<'_>>
    ensures { option_map asked result ≡ request_of (map string_bytes arguments.now) }
{
    match arguments {
        [first, others @ ..] if first.as_str() == "-e" => request_of_script(true, others),
        _ => request_of_script(false, arguments),
    }
}
