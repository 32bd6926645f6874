ghost use Rattle.std.specs.Prelude.{◌≡◌, ◌<◌, List, replicate, length, slice_get, slice_set, Some, IsTrue};

/// Eight values, laid out as they are tested fastest.
pub trait Block<T: Copy>: Copy {
    /// The values, in order.
    ghost items: { Self → List T };

    /// Eight times the same value.
    fn filled(item: T) -> Self
        ensures { items result ≡ replicate 8 item };

    fn get(&self, place: usize) -> T
        requires { place < 8 }
        ensures { slice_get (items self.now) place ≡ Some result };

    fn set(&mut self, place: usize, item: T)
        requires { place < 8 }
        ensures { items self.new ≡ slice_set (items self.old) place item };

    /// Whether all columns are those of another block. Such blocks have the same values, which are compared one by one only if
    /// this says no: blocks without columns always do.
    fn is_copy_of(&self, other: &Self) -> bool
        ensures { IsTrue result → items self.now ≡ items other.now }
    {
        let _ = other;
        false
    }

    ghost eight: { (block : Self) → length (items block) ≡ 8 };
}

/// A key that says in which blocks such keys are kept.
pub trait Columned: Copy {
    type Block: Block<Self>;
}
