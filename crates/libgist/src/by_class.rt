//! Dispatch over the kinds of what a handle owns, and over the three classes.

/// Calls a generic function on the variant of an enum of classes.
macro_rules! of_class {
    ($any:expr, $kind:ident, $it:ident => $call:expr) => {
        match $any {
            $kind::Intervals($it) => $call,
            $kind::Boxes($it) => $call,
            $kind::Sets($it) => $call,
        }
    };
}

/// Calls a generic function on two such enums, which must be of the same class.
macro_rules! of_one_class {
    ($any:expr, $kind:ident, $it:ident, $other:expr, $other_kind:ident, $by:ident => $call:expr) => {
        match $any {
            $kind::Intervals($it) => match $other {
                $other_kind::Intervals($by) => $call,
                _ => Err(Denied::OtherClass),
            },
            $kind::Boxes($it) => match $other {
                $other_kind::Boxes($by) => $call,
                _ => Err(Denied::OtherClass),
            },
            $kind::Sets($it) => match $other {
                $other_kind::Sets($by) => $call,
                _ => Err(Denied::OtherClass),
            },
        }
    };
}

/// A call of what a handle has, if that is of a kind.
macro_rules! in_held {
    ($held:expr, $as:ident, $kind:ident, $it:ident => $call:expr) => {
        match $held {
            Held::$as(any) => of_class!(any, $kind, $it => $call),
            _ => Err(Denied::NoHandle),
        }
    };
}

/// A call of what a handle has with what another has, if both are of their kinds and of one class.
macro_rules! in_held_by {
    ($other:expr, $by_as:ident, $by_kind:ident, $by:ident, $held:expr, $as:ident, $kind:ident, $it:ident => $call:expr) => {
        match $other {
            Held::$by_as(by) => match $held {
                Held::$as(any) => of_one_class!(any, $kind, $it, by, $by_kind, $by => $call),
                _ => Err(Denied::NoHandle),
            },
            _ => Err(Denied::NoHandle),
        }
    };
}

/// A call of what is lent, if that is of a kind.
macro_rules! in_lent {
    ($lent:expr, $as:ident, $kind:ident, $it:ident => $call:expr) => {
        match $lent.held() {
            Some(Held::$as(any)) => of_class!(any, $kind, $it => $call),
            _ => Err(Denied::NoHandle),
        }
    };
}

/// A call of what is lent with a query that is lent, if it is of a kind and of the query's class.
macro_rules! in_lent_by {
    ($asked:expr, $query:ident, $lent:expr, $as:ident, $kind:ident, $it:ident => $call:expr) => {
        match $asked.held() {
            Some(Held::Query(by)) => match $lent.held() {
                Some(Held::$as(any)) => {
                    of_one_class!(any, $kind, $it, by, AnyQuery, $query => $call)
                }
                _ => Err(Denied::NoHandle),
            },
            _ => Err(Denied::NoHandle),
        }
    };
}

pub(crate) use in_held;
pub(crate) use in_held_by;
pub(crate) use in_lent;
pub(crate) use in_lent_by;
pub(crate) use of_class;
pub(crate) use of_one_class;
