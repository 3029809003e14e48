//! Names of commands.
ghost use Rattle.std.specs.Prelude.{◌≡◌, map};
ghost use Rattle.std.specs.Char.{to_ascii_lowercase};
ghost use Rattle.stow_model.specs.Command.{is_named};

/// Whether the word is this name, without regard to ASCII case. The name is in lower case.
pub(crate) fn is_named(word: &[u8], name: &[u8]) -> bool
    requires { map to_ascii_lowercase name.now ≡ name.now }
    ensures { result ≡ is_named word.now name.now }
{
    word.eq_ignore_ascii_case(name)
}
