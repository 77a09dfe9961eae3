//! A frame: an open rule with its end, its scopes and where it was entered.

ghost use Rattle.std.specs.Prelude.{◌≡◌, ◌↔◌, IfOk, IsTrue};
ghost use Rattle.scope_defs.specs.Frames.{forgotten};

use crate::end_text::EndText;
use scope_defs::RuleId;
use scope_names::Scopes;
use std::alloc::AllocError;
use std::marker::Model;

/// An open rule, as vscode-textmate's StateStackImpl has it.
#[derive(Drop)]
pub struct Frame {
    pub rule: RuleId,
    /// Where it was entered, in the line at hand.
    pub enter: Option<u32>,
    /// The anchor of before.
    pub anchor: Option<u32>,
    /// Whether its begin took the line's end.
    pub took_end: bool,
    /// The text of its end, where a begin's captures stand in it.
    pub end: EndText,
    /// The scopes of the whole.
    pub name: Scopes,
    /// The scopes of what stands inside.
    pub content: Scopes,
}

impl Model for Frame {
    ghost use Rattle.scope_defs.specs.Frames.{Frame as OpenRule};

    ghost Value = { OpenRule };

    ghost view = { λ f. record { rule = f.rule.0; enter = f.enter; anchor = f.anchor; took_end = f.took_end; end_text = f.end; name = f.name; content = f.content } };
}

impl Frame {
    /// The same frame, which shares its texts and scopes.
    pub fn copy(&self) -> Result<Frame, AllocError>
        ensures { IfOk result (λ frame. frame ≡ self.now) }
    {
        let end = self.end.copy()?;
        let name = self.name.copy()?;
        let content = self.content.copy()?;
        Ok(Frame {
            rule: self.rule,
            enter: self.enter,
            anchor: self.anchor,
            took_end: self.took_end,
            end,
            name,
            content,
        })
    }

    /// Whether both are the same but for the places where they were entered and their anchors.
    pub fn same(&self, other: &Frame) -> bool
        ensures { IsTrue result ↔ (forgotten self.now ≡ forgotten other.now) }
    {
        self.rule == other.rule
            && self.took_end == other.took_end
            && self.end.same(&other.end)
            && self.name.same(&other.name)
            && self.content.same(&other.content)
    }
}
