ghost use Rattle.std.specs.Prelude.{◌≡◌, ◌∷◌, [], ◌++◌, map};
ghost use Rattle.pw_operands.specs.Uses.{cond_uses};
ghost use Rattle.pw_operands.specs.Uses as place;
ghost use Rattle.pw_names.specs.Flaws.{flaws_of};
ghost use Rattle.pw_names.specs.Order.{noted};

use crate::scope::NameScope;
use crate::wanted::{Extent, Wanted};
use pw_base::bytes::Bytes;
use pw_base::fault::Fault;
use pw_base::list::List;
use pw_forms::cond::ConditionForm;
use pw_forms::lists::Codes;
use pw_forms::operand::Operand;

impl<'a> NameScope<'a> {
    /// `MOVE from TO to ..`
    pub fn moved(
        &self,
        line: u32,
        from: &Operand,
        to: &List<Operand>,
        known: Option<Fault>,
    ) -> Option<Fault>
        ensures { result ≡ noted known line
            (flaws_of self.now.scope (place.Any from.now ∷ map place.Receiver to.now)) }
    {
        let known = self.any(line, from, known);
        self.receivers(line, to.as_slice(), known)
    }

    /// `PERFORM paragraph`
    pub fn perform(&self, line: u32, paragraph: &Bytes, known: Option<Fault>) -> Option<Fault>
        ensures { result ≡ noted known line
            (flaws_of self.now.scope (place.Paragraph paragraph.now ∷ [])) }
    {
        self.paragraph(line, paragraph, known)
    }

    /// `PERFORM paragraph times TIMES`
    pub fn perform_times(
        &self,
        line: u32,
        paragraph: &Bytes,
        times: &Operand,
        known: Option<Fault>,
    ) -> Option<Fault>
        ensures { result ≡ noted known line (flaws_of self.now.scope
            (place.Paragraph paragraph.now ∷ place.Amount times.now ∷ [])) }
    {
        let known = self.paragraph(line, paragraph, known);
        self.amount(line, times, known)
    }

    /// `PERFORM paragraph UNTIL cond`
    pub fn perform_until(
        &self,
        line: u32,
        paragraph: &Bytes,
        cond: &ConditionForm,
        known: Option<Fault>,
    ) -> Option<Fault>
        ensures { result ≡ noted known line
            (flaws_of self.now.scope (place.Paragraph paragraph.now ∷ cond_uses cond.now)) }
    {
        let known = self.paragraph(line, paragraph, known);
        self.cond(line, cond, known)
    }

    /// `PERFORM ONE OF paragraph .. DEPENDING ON position`
    pub fn perform_one_of(
        &self,
        line: u32,
        paragraphs: &List<Bytes>,
        position: &Operand,
        known: Option<Fault>,
    ) -> Option<Fault>
        ensures { result ≡ noted known line (flaws_of self.now.scope
            (map place.Paragraph paragraphs.now ++ place.Position position.now ∷ [])) }
    {
        let known = self.paragraph_names(line, paragraphs.as_slice(), known);
        self.item(line, Wanted::Number, position, known)
    }

    /// `DISPLAY BASE screen`, and the screen of an ACCEPT
    pub fn on_screen(&self, line: u32, screen: &Bytes, known: Option<Fault>) -> Option<Fault>
        ensures { result ≡ noted known line
            (flaws_of self.now.scope (place.Screen screen.now ∷ [])) }
    {
        self.screen(line, screen, known)
    }

    /// `DISPLAY screen` and `DISPLAY shown`
    pub fn display(&self, line: u32, shown: &Operand, known: Option<Fault>) -> Option<Fault>
        ensures { result ≡ noted known line (flaws_of self.now.scope (place.Shown shown.now ∷ [])) }
    {
        self.shown(line, shown, known)
    }

    /// `SEND message TO class REPLY CODE n YIELDS item ..`
    pub fn send(
        &self,
        line: u32,
        message: &Operand,
        class: &Bytes,
        codes: &Codes,
        known: Option<Fault>,
    ) -> Option<Fault>
        ensures { result ≡ noted known line (flaws_of self.now.scope (place.Sent message.now
            ∷ place.Class class.now ∷ map (λ code. place.Receiver code.yields) codes.now)) }
    {
        let known = self.item(line, Wanted::Any, message, known);
        let known = self.class(line, class, known);
        self.yields(line, codes.as_slice(), known)
    }

    /// `READ $RECEIVE INTO into`
    pub fn receive(&self, line: u32, into: &Operand, known: Option<Fault>) -> Option<Fault>
        ensures { result ≡ noted known line
            (flaws_of self.now.scope (place.Receiver into.now ∷ [])) }
    {
        self.item(line, Wanted::Item, into, known)
    }

    /// `WRITE $RECEIVE FROM from`
    pub fn reply(&self, line: u32, from: &Operand, known: Option<Fault>) -> Option<Fault>
        ensures { result ≡ noted known line (flaws_of self.now.scope (place.Sent from.now ∷ [])) }
    {
        self.item(line, Wanted::Any, from, known)
    }

    /// `READ file KEY key INTO into` and `READ NEXT file AFTER key INTO into`
    pub fn read(
        &self,
        line: u32,
        file: &Bytes,
        key: &Operand,
        into: &Operand,
        known: Option<Fault>,
    ) -> Option<Fault>
        ensures { result ≡ noted known line
            (flaws_of self.now.scope (place.Key file.now key.now ∷ place.Receiver into.now ∷ [])) }
    {
        let known = self.of_file(line, Extent::Key, file, key, known);
        self.item(line, Wanted::Item, into, known)
    }

    /// `WRITE file FROM from` and `REWRITE file FROM from`
    pub fn write(
        &self,
        line: u32,
        file: &Bytes,
        from: &Operand,
        known: Option<Fault>,
    ) -> Option<Fault>
        ensures { result ≡ noted known line
            (flaws_of self.now.scope (place.Record file.now from.now ∷ [])) }
    {
        self.of_file(line, Extent::Record, file, from, known)
    }

    /// `DELETE file KEY key`
    pub fn delete(
        &self,
        line: u32,
        file: &Bytes,
        key: &Operand,
        known: Option<Fault>,
    ) -> Option<Fault>
        ensures { result ≡ noted known line
            (flaws_of self.now.scope (place.Key file.now key.now ∷ [])) }
    {
        self.of_file(line, Extent::Key, file, key, known)
    }
}
