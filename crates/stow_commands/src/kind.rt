//! What words are to a connection.
ghost use Rattle.std.specs.Prelude.{◌≡◌};
ghost use Rattle.stow_model.specs.Command as meant;
ghost use Rattle.stow_model.specs.LentWords.{words_in};
ghost use Rattle.stow_commands.specs.Commands.{meaning};

use crate::name::is_named;
use stow_model::lent_words::LentWords;

/// What words are to a connection.
#[derive(Clone, Copy)]
pub enum Kind<'a> {
    /// A name and a password.
    Login(&'a [u8], &'a [u8]),
    Quit,
    /// A login or a quit with another number of words.
    Malformed,
    /// A request to the tenant's store.
    ForStore,
}

/// What the words are to a connection.
#[tactic(auto, using(crate::proofs::Named::kinds))]
pub fn kind_of(words: LentWords<'_>) -> Kind<'_>
    ensures { meaning result ≡ meant.kind_of (words_in words.entry) }
{
    let Some((name, arguments)) = words.split_first() else {
        return Kind::ForStore;
    };
    if is_named(name, b"auth") {
        login_kind(arguments)
    } else if is_named(name, b"quit") {
        quit_kind(arguments)
    } else {
        Kind::ForStore
    }
}

fn login_kind(arguments: LentWords<'_>) -> Kind<'_>
    ensures { meaning result ≡ meant.login_kind (words_in arguments.entry) }
{
    match arguments.two() {
        Some((name, password)) => Kind::Login(name, password),
        None => Kind::Malformed,
    }
}

fn quit_kind(arguments: LentWords<'_>) -> Kind<'_>
    ensures { meaning result ≡ meant.quit_kind (words_in arguments.entry) }
{
    if arguments.is_empty() {
        Kind::Quit
    } else {
        Kind::Malformed
    }
}
