// The calls of a section, whatever its kind.
ghost use Rattle.std.specs.Prelude.{◌≡◌, [], ◌∷◌, ◌++◌, vec_len, OnOk};
ghost use Rattle.words.specs.Lines.{setting_at};

use std::alloc::{AllocError, Global};
use words::reason::Reason;

// The calls in their order, and each one's text as the script has it. Two vectors and not one of pairs, since the calls are performed
// as a slice of calls.
#[derive(Drop)]
pub struct Calls<'a, C: Copy> {
    list: Vec<C>,
    texts: Vec<&'a [u8]>,
}

impl<'a, C: Copy> Calls<'a, C> {
    pub fn new(heap: Global) -> Calls<'a, C>
        ensures list { result.list.items ≡ [] }
        ensures texts { result.texts.items ≡ [] }
    {
        Calls {
            list: Vec::new(heap),
            texts: Vec::new(heap),
        }
    }

    pub fn as_slice(&self) -> &[C]
        ensures { result.now ≡ self.now.list.items }
    {
        self.list.as_slice()
    }

    pub fn texts(&self) -> &[&'a [u8]]
        ensures { result.now ≡ self.now.texts.items }
    {
        self.texts.as_slice()
    }

    // A setting comes before the first call.
    pub fn setting(&self) -> Result<(), Reason>
        ensures { result ≡ setting_at (vec_len self.now.list) }
    {
        if self.list.is_empty() {
            Ok(())
        } else {
            Err(Reason::SettingAfterCall)
        }
    }

    pub fn push(&mut self, call: C, text: &'a [u8]) -> Result<(), AllocError>
        ensures list { OnOk result (self.new.list.items ≡ self.old.list.items ++ call ∷ []) }
        ensures texts { OnOk result (self.new.texts.items ≡ self.old.texts.items ++ text.entry ∷ []) }
    {
        self.list.push(call)?;
        self.texts.push(text)?;
        Ok(())
    }
}
