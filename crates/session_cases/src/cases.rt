use crate::adding::{Adding, Answer, Order};
use history::{Entry, Told};
use lists::ListOf;
use sandbox::{Act, Note};
use sessions::Served;
use std::alloc::{AllocError, Global};
use std::fmt::Write;

/// The acts of each user, a line for each: `[` opens a sandbox, `]` publishes it and `x` discards it; a number is
/// added, and any other word asks for the total.
pub fn users_of(alloc: Global, text: &str) -> Result<Vec<ListOf<Act<Order>>>, AllocError> {
    let mut users = Vec::new(alloc);
    for line in text.lines() {
        let mut acts = Vec::new(alloc);
        for word in line.split(' ').filter(|word| !word.is_empty()) {
            acts.push(act_of(word))?;
        }
        users.push(ListOf::new(acts))?;
    }
    Ok(users)
}

fn act_of(word: &str) -> Act<Order> {
    match word {
        "[" => Act::Open,
        "]" => Act::Publish,
        "x" => Act::Discard,
        _ => match word.parse::<u64>() {
            Ok(number) => Act::Do(Order::Add(number)),
            Err(_) => Act::Do(Order::Ask),
        },
    }
}

/// How a run ended, in words that no order of the users changes: the total, and of each user how many acts were told
/// what, and whether each speaks of the version of its place.
pub fn ending(alloc: Global, served: &Served<Adding>) -> Result<String, AllocError> {
    let mut text = String::new(alloc);
    writeln!(
        text,
        "total {} after {} commits",
        served.state,
        served.log.len()
    )?;
    for (index, told) in served.told.iter().enumerate() {
        let told = told.as_slice();
        let added = told
            .iter()
            .filter(|told| matches!(told.reply, Answer::Added { .. }))
            .count();
        let refused = told
            .iter()
            .filter(|told| matches!(told.reply, Answer::Refused(_)))
            .count();
        writeln!(
            text,
            "user {}: {} told, {added} added, {refused} refused, {}",
            index.saturating_add(1),
            told.len(),
            if are_right(&served.log, told) {
                "right"
            } else {
                "wrong"
            }
        )?;
    }
    Ok(text)
}

// Whether the replies are right for the versions of their places, and for what the sandbox had kept.
fn are_right(log: &[Entry<u64>], told: &[Told<Answer>]) -> bool {
    let mut kept: u64 = 0;
    for one in told {
        let before = total_at(log, one.place);
        let right = match one.reply {
            Answer::Added { total, .. } => total == total_at(log, one.place.saturating_add(1)),
            Answer::Total(total) => total == before.saturating_add(kept),
            _ => true,
        };
        if !right {
            return false;
        }
        kept = match one.reply {
            Answer::Kept(number) => kept.saturating_add(number),
            Answer::Added { .. } | Answer::Noted(Note::Discarded) => 0,
            _ => kept,
        };
    }
    true
}

// The total of the version of this place.
fn total_at(log: &[Entry<u64>], place: u64) -> u64 {
    let mut total: u64 = 0;
    for (index, entry) in log.iter().enumerate() {
        if (index as u64) < place {
            total = total.saturating_add(entry.writes);
        }
    }
    total
}

/// What each user was told, with the places, and the history. It is for users whom no order changes.
pub fn replies(alloc: Global, served: &Served<Adding>) -> Result<String, AllocError> {
    let mut text = String::new(alloc);
    for (index, told) in served.told.iter().enumerate() {
        writeln!(text, "user {}", index.saturating_add(1))?;
        for one in told.as_slice() {
            write!(text, "@{} ", one.place)?;
            write_answer(&mut text, &one.reply)?;
        }
    }
    writeln!(text, "history")?;
    for entry in &served.log {
        writeln!(
            text,
            "user {} act {} adds {}",
            entry.user, entry.command, entry.writes
        )?;
    }
    Ok(text)
}

fn write_answer(text: &mut String, answer: &Answer) -> Result<(), AllocError> {
    match answer {
        Answer::Added { total, .. } => writeln!(text, "added {total}")?,
        Answer::Refused(number) => writeln!(text, "refused {number}")?,
        Answer::Total(total) => writeln!(text, "total {total}")?,
        Answer::Kept(number) => writeln!(text, "kept {number}")?,
        Answer::NoRoom => writeln!(text, "no room")?,
        Answer::Noted(Note::Opened) => writeln!(text, "opened")?,
        Answer::Noted(Note::AlreadyOpen) => writeln!(text, "one is open")?,
        Answer::Noted(Note::NoSandbox) => writeln!(text, "none is open")?,
        Answer::Noted(Note::Discarded) => writeln!(text, "discarded")?,
    }
    Ok(())
}
