ghost use Rattle.history.specs.declared.effect.Effect.{Effect};

/// A world in which each command is answered on a content and on its user's private layer. The laws of this crate hold
/// of any such world; no value of one need be made.
pub trait Answering {
    type Content;

    type Layer;

    type Command;

    type Writes;

    type Reply;

    /// What a command does on a content, for a user with this layer, and the user's next layer.
    ghost answer: { Self.Content → Self.Layer → Self.Command → Effect Self.Writes Self.Reply × Self.Layer };
    /// The content after these writes.
    ghost after: { Self.Content → Self.Writes → Self.Content };
}
