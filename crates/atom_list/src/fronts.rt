//! The atoms before the first marker of a context.

ghost use Rattle.std.specs.Prelude.{◌≡◌, ◌↔◌, IsTrue, length};
ghost use Rattle.context_model.specs.Ended.{front_of, HasMarker};

use crate::contexts::Context;

impl Context {
    /// How many atoms are before the first marker; all of them where there is none. It takes no
    /// memory.
    pub fn front_len(&self) -> usize
        ensures { result ≡ length (front_of self.now) }
    {
        let list = self.list();
        for at in 0..list.len() {
            if list.get(at).unwrap().is_empty() {
                return at;
            }
        }
        list.len()
    }

    /// Whether the context has a marker. It takes no memory.
    pub fn has_marker(&self) -> bool
        ensures { IsTrue result ↔ HasMarker self.now }
    {
        self.front_len() < self.list().len()
    }
}
