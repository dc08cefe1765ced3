//! The built-in commands.

ghost use Rattle.std.specs.Prelude.{◌≡◌};
ghost use Rattle.rc_model.specs.Run.Builtins.{builtin_named};

/// The built-in commands. `Dot` is `.`, and `BuiltinWord` is `builtin`.
#[derive(Clone, Copy, Debug, PartialEq)]
pub enum Builtin {
    Dot,
    BuiltinWord,
    Cd,
    Eval,
    Exec,
    Exit,
    Shift,
    Wait,
    Whatis,
}

impl Builtin {
    /// Returns the built-in command of this name.
    pub fn named(name: &str) -> Option<Builtin>
        ensures { result ≡ builtin_named name.now }
    {
        Some(match name {
            "." => Builtin::Dot,
            "builtin" => Builtin::BuiltinWord,
            "cd" => Builtin::Cd,
            "eval" => Builtin::Eval,
            "exec" => Builtin::Exec,
            "exit" => Builtin::Exit,
            "shift" => Builtin::Shift,
            "wait" => Builtin::Wait,
            "whatis" => Builtin::Whatis,
            _ => return None,
        })
    }
}
