//! The list that holds the members of a value: its own, or shared with other values.

ghost use Rattle.std.specs.Prelude.{◌≡◌, ◌∷◌, ◌++◌, [], IfErr, IfOk, OnErr, MatchOption};
ghost use Rattle.rc_scope.specs.MemberLists.{members_in};

use rc_text::Text;
use std::alloc::{AllocError, Global};
use std::mem::replace;
use std::rc::Rc;

/// The texts of one value alone, or of all values that have the same ones.
#[derive(Drop)]
pub(crate) enum MemberList {
    Own(Vec<Text>),
    Shared(Rc<Vec<Text>>),
}

impl MemberList {
    pub(crate) fn as_slice(&self) -> &[Text]
        ensures { result.now ≡ members_in self.now }
    {
        match self {
            MemberList::Own(texts) => texts.as_slice(),
            MemberList::Shared(texts) => texts.as_slice(),
        }
    }

    pub(crate) fn allocator(&self) -> Global {
        match self {
            MemberList::Own(texts) => *texts.allocator(),
            MemberList::Shared(texts) => *texts.allocator(),
        }
    }

    /// The texts to share, or the list as it was if there is no memory.
    fn into_shared(self, alloc: Global) -> Result<Rc<Vec<Text>>, MemberList>
        ensures ok { IfOk result (λ shared. shared.value.items ≡ members_in self) }
        ensures err { IfErr result (λ list. members_in list ≡ members_in self) }
    {
        match self {
            MemberList::Shared(texts) => Ok(texts),
            MemberList::Own(texts) => match Rc::new(alloc, texts) {
                Ok(shared) => Ok(shared),
                Err(refused) => Err(MemberList::Own(refused.value)),
            },
        }
    }

    /// Shares the texts with another value; none is copied. Whether it fails or not, the list keeps the same texts.
    pub(crate) fn share(&mut self, alloc: Global) -> Result<Rc<Vec<Text>>, AllocError>
        ensures ok { IfOk result (λ shared. shared.value.items ≡ members_in self.old) }
        ensures same { members_in self.new ≡ members_in self.old }
    {
        let list = replace(self, MemberList::Own(Vec::new(alloc)));
        match list.into_shared(alloc) {
            Ok(texts) => {
                let other: Result<_, _> = texts.clone();
                *self = MemberList::Shared(texts);
                other
            }
            Err(list) => {
                *self = list;
                Err(AllocError)
            }
        }
    }

    /// Adds a text if no other value shares the list, else returns the text. On `Err` the list stays as it is.
    pub(crate) fn push(&mut self, text: Text) -> Result<Option<Text>, AllocError>
        ensures ok { IfOk result (λ left. MatchOption left
            (members_in self.new ≡ members_in self.old ++ text ∷ [])
            (λ given. (given ≡ text) × (members_in self.new ≡ members_in self.old))) }
        ensures err { OnErr result (members_in self.new ≡ members_in self.old) }
    {
        match self {
            MemberList::Own(texts) => {
                texts.push(text)?;
                Ok(None)
            }
            MemberList::Shared(_) => Ok(Some(text)),
        }
    }

    /// The list, which is its own again if no other value shares it any more.
    fn alone(self) -> MemberList
        ensures { members_in result ≡ members_in self }
    {
        match self {
            MemberList::Own(texts) => MemberList::Own(texts),
            MemberList::Shared(texts) => match Rc::try_unwrap(texts) {
                Ok(texts) => MemberList::Own(texts),
                Err(texts) => MemberList::Shared(texts),
            },
        }
    }

    /// Takes the list for its own again, if no other value shares it any more.
    pub(crate) fn take_back(&mut self)
        ensures { members_in self.new ≡ members_in self.old }
    {
        let MemberList::Shared(texts) = self else {
            return;
        };
        let alloc = *texts.allocator();
        let list = replace(self, MemberList::Own(Vec::new(alloc)));
        *self = list.alone();
    }
}
