ghost use Rattle.std.specs.Prelude.{◌≡◌};

/// A form in which values are written.
pub trait Form<X, T> {
    ghost form_of: { X → T };

    fn form(it: X) -> T
        ensures { result ≡ form_of it };
}

/// Values as they are.
pub struct AsIs;

impl<X> Form<X, X> for AsIs {
    ghost form_of = { λ it. it };

    fn form(it: X) -> X
        ensures { result ≡ it }
    {
        it
    }
}
