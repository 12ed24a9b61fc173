ghost use Rattle.std.specs.Prelude.{◌≡◌};
ghost use Rattle.version_book.specs.Passes.{IsOf, next_of, numbers_of};

use crate::refusing::{Held, Refusing};
use history::Effect;
use std::alloc::{AllocError, Global};
use std::fmt::Write;
use std::sync::Wait;
use version_book::{Book, Pass, TriedOf};

/// Sets the numbers of a line, one after another, where the first number with a `!` behind it finds no memory in its
/// commit. Tells at which place each is committed and which number was there before, or that there was no memory, and
/// in the end the history.
pub fn commits<R: Wait>(rt: &R, alloc: Global, line: &str) -> Result<String, AllocError> {
    let words: Vec<&str> = line.split(' ').collect(alloc)?;
    let mut told = String::new(alloc);
    let opening = Held {
        number: 0,
        pins: 0,
        refused: refused_of(&words),
    };
    let (book, mut pass) = Book::<Refusing>::begin(alloc, opening)?;
    set_each(rt, alloc, &book, &mut pass, &words, &mut told)?;
    let closed = book.close(pass);
    writeln!(told, "history")?;
    for entry in &closed.history {
        writeln!(told, "command {} sets {}", entry.command, entry.writes)?;
    }
    Ok(told)
}

// Tries to set the number of each word.
fn set_each<R: Wait>(
    rt: &R,
    alloc: Global,
    book: &Book<Refusing>,
    pass: &mut Pass<Refusing>,
    words: &[&str],
    told: &mut String,
) -> Result<(), AllocError>
    requires of { IsOf book.now pass.old }
    ensures of { IsOf book.now pass.new }
    ensures next { next_of pass.new ≡ next_of pass.old }
    ensures numbers { numbers_of pass.new ≡ numbers_of pass.old }
{
    let mut command: u32 = 0;
    for word in words {
        command = command.saturating_add(1);
        set(rt, alloc, book, pass, (command, number_of(word)), told)?;
    }
    Ok(())
}

// Tries to set a number by the command of this number.
fn set<R: Wait>(
    rt: &R,
    alloc: Global,
    book: &Book<Refusing>,
    pass: &mut Pass<Refusing>,
    by: (u32, u64),
    told: &mut String,
) -> Result<(), AllocError>
    requires of { IsOf book.now pass.old }
    ensures of { IsOf book.now pass.new }
    ensures next { next_of pass.new ≡ next_of pass.old }
    ensures numbers { numbers_of pass.new ≡ numbers_of pass.old }
{
    let (command, number) = by;
    let pin = book.pin(rt, alloc, pass)?;
    let TriedOf { place, effect } = pin.attempt(alloc, &number)?;
    let Effect::Commit(writes, reply) = effect else {
        return Ok(());
    };
    let tried = TriedOf {
        place,
        effect: Effect::Commit(writes, reply),
    };
    match book.commit(rt, alloc, pass, command, &number, tried) {
        Ok(settled) => {
            let (place, before) = (settled.place, settled.reply);
            writeln!(told, "{number} is committed at {place}, behind {before}")
        }
        Err(_) => writeln!(told, "{number} finds no memory"),
    }
}

// Which of the words is refused, counted from 1; 0 where none is.
fn refused_of(words: &[&str]) -> u64 {
    let mut place: u64 = 0;
    for word in words {
        place = place.saturating_add(1);
        if word.ends_with('!') {
            return place;
        }
    }
    0
}

fn number_of(word: &str) -> u64 {
    word.trim_end_matches('!').parse::<u64>().unwrap_or(0)
}
