ghost use Rattle.std.specs.Prelude.{◌≡◌, ◌≢◌, ◌++◌, codes, IfOk};
ghost use Rattle.user_session.specs.Replies.{fault_text, kept_text, reason_text, reply_text, spread_fault_text};

use cell_spread::SpreadFault;
use cube_fixed::{Value, print};
use lists::ListOf;
use std::alloc::{AllocError, Global};
use view_query::ViewFault;

/// The reply to a command, as text without the end of its line.
pub type ReplyText = ListOf<u8>;

/// Why a command has no effect. Where several reasons hold, the answer is the first.
#[derive(Clone, Copy, Debug, PartialEq, Eq)]
pub enum CommandReason {
    /// The cube or an element isn't there, or there are too many elements or too few.
    UnknownName,
    /// The cell is consolidated, so nothing is stored in it.
    NotALeaf,
    /// The cell has its value by a rule without STET.
    RuleDerived,
    /// The store would hold more than 1,000,000 cells.
    StoreLimit,
    /// More than 4,000,000 cells would be fed.
    FedLimit,
    /// No sandbox is open.
    NoSandbox,
    /// A sandbox is open already.
    SandboxOpen,
}

/// The reply to a command.
#[derive(Clone, Copy, PartialEq, Eq)]
pub enum Reply {
    /// The command is accepted: so many cells were written.
    Committed(u64),
    /// A writing command isn't accepted. It wrote nothing.
    Rejected(CommandReason),
    /// The value of a cell.
    Found(Value),
    /// A reading command has no answer.
    Refused(CommandReason),
    /// A sandbox was opened.
    Opened,
    /// A sandbox was ended, and what it kept is dropped.
    Discarded,
}

impl Reply {
    /// `committed N`, `rejected REASON`, the value, `refused REASON`, `opened` or `discarded`.
    pub(crate) fn text(self, alloc: Global) -> Result<ReplyText, AllocError>
        ensures { IfOk result (λ text. text ≡ reply_text self) }
    {
        let text = match self {
            Reply::Committed(cells) => format!(in alloc; "committed {cells}")?.into_bytes(),
            Reply::Rejected(reason) => reason_text(alloc, b"rejected ", reason)?,
            Reply::Found(value) => value_text(alloc, value)?,
            Reply::Refused(reason) => reason_text(alloc, b"refused ", reason)?,
            Reply::Opened => Vec::from_slice(alloc, b"opened")?,
            Reply::Discarded => Vec::from_slice(alloc, b"discarded")?,
        };
        Ok(ListOf::new(text))
    }
}

/// The first word of the reply to a command that is accepted.
const COMMITTED: &[u8] = b"committed";

/// The reply to a command whose writes are kept in a sandbox: `kept` in place of `committed`.
pub(crate) fn kept_reply(alloc: Global, reply: &[u8]) -> Result<ReplyText, AllocError>
    ensures { IfOk result (λ text. text ≡ kept_text reply.now) }
{
    let behind = reply.get(COMMITTED.len()..).unwrap_or(&[]);
    let text = with_name(alloc, b"kept", behind)?;
    Ok(ListOf::new(text))
}

/// `refused` and the name of why there is no table.
pub(crate) fn refused_view(alloc: Global, fault: ViewFault) -> Result<ReplyText, AllocError>
    ensures { IfOk result (λ text. (text ≡ codes "refused " ++ fault_text fault) × (fault ≢ ViewFault.Memory)) }
{
    let name = match fault {
        ViewFault::UnknownName => "UnknownName",
        ViewFault::WrongCount => "WrongCount",
        ViewFault::ViewLimit(_) => "ViewLimit",
        ViewFault::Memory => return Err(AllocError),
    };
    let text = with_name(alloc, b"refused ", name.as_bytes())?;
    Ok(ListOf::new(text))
}

/// `rejected` and the name of why an amount isn't spread.
pub(crate) fn rejected_spread(alloc: Global, fault: SpreadFault) -> Result<ReplyText, AllocError>
    ensures { IfOk result (λ text.
        (text ≡ codes "rejected " ++ spread_fault_text fault) × (fault ≢ SpreadFault.Memory)) }
{
    let name = match fault {
        SpreadFault::IsALeaf => "IsALeaf",
        SpreadFault::SpreadLimit(_) => "SpreadLimit",
        SpreadFault::Weighted => "Weighted",
        SpreadFault::RuleDerived => "RuleDerived",
        SpreadFault::NothingThere => "NothingThere",
        SpreadFault::OverWrite => "OverWrite",
        SpreadFault::Memory => return Err(AllocError),
    };
    let text = with_name(alloc, b"rejected ", name.as_bytes())?;
    Ok(ListOf::new(text))
}

// A word and a name behind it.
fn with_name(alloc: Global, word: &[u8], name: &[u8]) -> Result<Vec<u8>, AllocError>
    ensures { IfOk result (λ text. text.items ≡ word.now ++ name.now) }
{
    let mut text = Vec::from_slice(alloc, word)?;
    text.extend_from_slice(name)?;
    Ok(text)
}

fn reason_text(alloc: Global, word: &[u8], reason: CommandReason) -> Result<Vec<u8>, AllocError>
    ensures { IfOk result (λ text. text.items ≡ word.now ++ reason_text reason) }
{
    with_name(alloc, word, reason_name(reason).as_bytes())
}

fn reason_name(reason: CommandReason) -> &'static str
    ensures { result.now ≡ reason_text reason }
{
    match reason {
        CommandReason::UnknownName => "UnknownName",
        CommandReason::NotALeaf => "NotALeaf",
        CommandReason::RuleDerived => "RuleDerived",
        CommandReason::StoreLimit => "StoreLimit",
        CommandReason::FedLimit => "FedLimit",
        CommandReason::NoSandbox => "NoSandbox",
        CommandReason::SandboxOpen => "SandboxOpen",
    }
}

fn value_text(alloc: Global, value: Value) -> Result<Vec<u8>, AllocError>
    ensures { IfOk result (λ text. text.items ≡ reply_text (Reply.Found value)) }
{
    let mut text = Vec::new(alloc);
    print(alloc, value, &mut text)?;
    Ok(text)
}
