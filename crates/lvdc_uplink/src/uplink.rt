ghost use Rattle.std.specs.Prelude.{◌≡◌, ◌≤◌, ◌⊎◌, true, false, IfOk, IsOkAnd, OnErr};
ghost use Rattle.lvdc_image.specs.Image.{Contents};
ghost use Rattle.lvdc_uplink.specs.Messages.{IsMessage, message_of};
ghost use Rattle.lvdc_uplink.specs.Link.{after_message, named, opens, frames, commits, recommits, abandons, after_text, is_acknowledged, again, is_opening, is_applying, link_to};
ghost use Rattle.lvdc_uplink.specs.Heard.{Heard, IsAsHeard, IsHeldIf, nothing_heard, hears};

use crate::Answer;
use crate::frame::Frame;
use crate::laws::{refused_changes_nothing, repeated_changes_nothing};
use crate::load::Load;
use crate::message::Message;
use crate::parse::message_of;
use lvdc_image::Image;
use lvdc_word::{NoMemory, Word};
use std::alloc::Global;
use std::marker::Model;

/// An image that messages patch, with the load that is open and what was committed last (this project's profile).
pub struct Uplink {
    alloc: Global,
    image: Image,
    load: Option<Load>,
    last: u32,
    check: Word,
}

impl Model for Uplink {
    ghost use Rattle.lvdc_uplink.specs.Link.{Link};

    ghost Value = { Link };

    ghost view = { λ u. record { image = u.image; load = u.load; last = u.last; check = u.check } };
}

/// Its parts go in one call, which whoever lets an uplink go doesn't look into.
impl Drop for Uplink {
    fn drop(self) {
        let Uplink {
            alloc: _,
            image: _,
            load: _,
            last: _,
            check: _,
        } = self;
    }
}

impl Uplink {
    /// An uplink to which nothing was sent yet. It takes no memory.
    pub fn new(alloc: Global, image: Image) -> Result<Uplink, NoMemory>
        ensures link { IsOkAnd result (λ uplink. uplink ≡ link_to image) }
        ensures heard { IsOkAnd result (λ uplink. IsAsHeard image nothing_heard uplink) }
    {
        Ok(Uplink {
            alloc,
            image,
            load: None,
            last: 0,
            check: Word::ZERO,
        })
    }

    /// The image as the committed loads have made it.
    pub fn image(&self) -> &Image
        ensures { result.now ≡ self.now.image }
    {
        &self.image
    }

    /// Opens a load of so many frames.
    fn open(&mut self, id: u32, count: u8) -> Result<Answer, NoMemory>
        requires { count ≤ 64 }
        ensures step { IfOk result (λ answer. opens id count self.old self.old.load ≡ record { answer = answer; link = self.new }) }
        ensures unchanged { OnErr result (self.new ≡ self.old) }
        ensures memory { OnErr result (is_opening self.old (opens id count self.old self.old.load) ≡ true) }
    {
        if let Some(load) = &self.load {
            return Ok(if load.id() == id && load.count() == usize::from(count) {
                Answer::Opened(id)
            } else {
                Answer::Busy(load.id())
            });
        }
        if id <= self.last {
            return Ok(Answer::Old(self.last));
        }
        self.load = Some(Load::new(self.alloc, id, count)?);
        Ok(Answer::Opened(id))
    }

    /// Takes a frame of the open load.
    fn file(&mut self, id: u32, number: u8, frame: Frame, check: Word) -> Answer
        requires { 1 ≤ number }
        ensures { frames number frame check self.old (named id self.old.load) ≡ record { answer = result; link = self.new } }
    {
        match &mut self.load {
            Some(load) if load.id() == id => load.file(number, frame, check),
            _ => Answer::NoLoad,
        }
    }

    /// Applies the open load, where nothing stands against it.
    fn apply(&mut self, id: u32, check: Word) -> Result<Answer, NoMemory>
        ensures step { IfOk result (λ answer. commits check self.old (named id self.old.load) ≡ record { answer = answer; link = self.new }) }
        ensures unchanged { OnErr result (self.new ≡ self.old) }
        ensures memory { OnErr result (is_applying self.old (commits check self.old (named id self.old.load)) ≡ true) }
    {
        let Some(load) = &self.load else {
            return Ok(Answer::NoLoad);
        };
        if load.id() != id {
            return Ok(Answer::NoLoad);
        }
        if let Some(answer) = load.refusal(check) {
            return Ok(answer);
        }
        let image = load.patch(self.alloc, &self.image)?;
        self.image = image;
        self.load = None;
        self.last = id;
        self.check = check;
        Ok(Answer::Committed(id))
    }

    /// Commits a load, or answers again that it was the last to be committed.
    fn commit(&mut self, id: u32, check: Word) -> Result<Answer, NoMemory>
        ensures step { IfOk result (λ answer. recommits id check self.old ≡ record { answer = answer; link = self.new }) }
        ensures unchanged { OnErr result (self.new ≡ self.old) }
        ensures memory { OnErr result (is_applying self.old (recommits id check self.old) ≡ true) }
    {
        if self.last == id && self.check == check {
            Ok(Answer::Committed(id))
        } else {
            self.apply(id, check)
        }
    }

    /// Takes the open load away.
    fn abandon(&mut self, id: u32) -> Answer
        ensures { abandons self.old (named id self.old.load) ≡ record { answer = result; link = self.new } }
    {
        match &self.load {
            Some(load) if load.id() == id => {
                self.load = None;
                Answer::Abandoned(id)
            }
            _ => Answer::NoLoad,
        }
    }

    /// Answers a message.
    fn take(&mut self, message: Message) -> Result<Answer, NoMemory>
        requires { IsMessage message }
        ensures step { IfOk result (λ answer. after_message self.old message ≡ record { answer = answer; link = self.new }) }
        ensures unchanged { OnErr result (self.new ≡ self.old) }
        ensures no_memory { OnErr result ((is_opening self.old (after_message self.old message) ≡ true) ⊎ (is_applying self.old (after_message self.old message) ≡ true)) }
    {
        match message {
            Message::Open { id, count } => self.open(id, count),
            Message::Frame {
                id,
                number,
                frame,
                check,
            } => Ok(self.file(id, number, frame, check)),
            Message::Commit { id, check } => self.commit(id, check),
            Message::Abandon { id } => Ok(self.abandon(id)),
        }
    }

    /// Answers a line, which is a message or is none.
    fn answer(&mut self, text: &[u8]) -> Result<Answer, NoMemory>
        ensures step { IfOk result (λ answer. after_text self.old text.now ≡ record { answer = answer; link = self.new }) }
        ensures unchanged { OnErr result (self.new ≡ self.old) }
        ensures no_memory { OnErr result ((is_opening self.old (after_text self.old text.now) ≡ true) ⊎ (is_applying self.old (after_text self.old text.now) ≡ true)) }
    {
        match message_of(text) {
            Some(message) => self.take(message),
            None => Ok(Answer::Form),
        }
    }

    /// Answers a line, which is a message or is none. Only an OPEN that opens a load and a COMMIT that applies one take memory.
    pub fn message(&mut self, text: &[u8]) -> Result<Answer, NoMemory>
        // The answer and what is then held are those of the definition.
        ensures step { IfOk result (λ answer. after_text self.old text.now ≡ record { answer = answer; link = self.new }) }
        // To whoever hears the lines and their answers the image is the first one changed by the loads that were committed, whole,
        // each once and in their order, and the open load is the one that was heard of.
        ensures heard { IfOk result (λ answer. (opening : Contents) (heard : Heard) → IsAsHeard opening heard self.old
            → IsAsHeard opening (hears text.now answer heard) self.new) }
        // What an acknowledgement says is so: of the load that is open, of its frame, of the load that was committed last.
        ensures held { IfOk result (λ answer. IsHeldIf (message_of text.now) (is_acknowledged answer) self.new.load self.new.last self.new.check) }
        // A line that is acknowledged, sent again directly, changes nothing. It is acknowledged again, but for ABANDON.
        ensures again { IfOk result (λ answer. is_acknowledged answer ≡ true → after_text self.new text.now ≡ record { answer = again answer; link = self.new }) }
        // An answer that doesn't acknowledge, and the want of memory, change nothing.
        ensures refused { IfOk result (λ answer. is_acknowledged answer ≡ false → self.new ≡ self.old) }
        ensures unchanged { OnErr result (self.new ≡ self.old) }
        ensures no_memory { OnErr result ((is_opening self.old (after_text self.old text.now) ≡ true) ⊎ (is_applying self.old (after_text self.old text.now) ≡ true)) }
    {
        refused_changes_nothing();
        repeated_changes_nothing();
        self.answer(text)
    }
}
