//! An answer, and whether a further handler may be asked.
ghost use Rattle.std.specs.Prelude.{◌≡◌, Some, IsSome, unwrap_or};
ghost use Rattle.std.specs.Option.{ForSome};
ghost use Rattle.zone_handler.specs.ControlFlow.{is_continue, is_break, inner_result, flow_text, ok_value, err_value, KeepsCase, MapsOk, MapsErr};

use crate::auth_lookup::AuthLookup;
use lookup_types::LookupError;
use std::fmt;
use std::fmt::Display;

/// What one handler of a chain answers, and how the chain goes on.
#[derive(Debug, Drop)]
pub enum LookupControlFlow<T, E = LookupError> {
    /// This answer so far; the next handler of the chain may be consulted about it.
    Continue(Result<T, E>),
    /// This answer is final: no other handler is asked.
    Break(Result<T, E>),
    /// This handler has nothing to say; the next one is asked.
    Skip,
}

impl<T, E> Display for LookupControlFlow<T, E> {
    ghost output = { λ flow. Some (flow_text flow) };

    /// Prints the step and the case of its result, and not what is inside.
    fn fmt<W: fmt::Write>(&self, f: &mut fmt::Formatter<W>) -> fmt::Result {
        match self {
            LookupControlFlow::Continue(Ok(_)) => f.write_str("LookupControlFlow::Continue(Ok)"),
            LookupControlFlow::Continue(Err(_)) => f.write_str("LookupControlFlow::Continue(Err)"),
            LookupControlFlow::Break(Ok(_)) => f.write_str("LookupControlFlow::Break(Ok)"),
            LookupControlFlow::Break(Err(_)) => f.write_str("LookupControlFlow::Break(Err)"),
            LookupControlFlow::Skip => f.write_str("LookupControlFlow::Skip"),
        }
    }
}

impl<T, E> LookupControlFlow<T, E> {
    /// Whether this is a `Continue`.
    pub fn is_continue(&self) -> bool
        ensures { result ≡ is_continue self.now }
    {
        matches!(self, LookupControlFlow::Continue(_))
    }

    /// Whether this is a `Break`.
    pub fn is_break(&self) -> bool
        ensures { result ≡ is_break self.now }
    {
        matches!(self, LookupControlFlow::Break(_))
    }

    /// The result inside a `Continue` or a `Break`, and None exactly for `Skip`.
    pub fn map_result(self) -> Option<Result<T, E>>
        ensures { result ≡ inner_result self }
    {
        match self {
            LookupControlFlow::Continue(result) => Some(result),
            LookupControlFlow::Break(result) => Some(result),
            LookupControlFlow::Skip => None,
        }
    }
}

impl<E: Display> LookupControlFlow<AuthLookup, E> {
    /// The answer inside. The caller owes that there is one; the message
    /// tells the reader of the code why.
    pub fn expect(self, _message: &str) -> AuthLookup
        requires { IsSome (ok_value self) }
        ensures { ok_value self ≡ Some result }
    {
        match self {
            LookupControlFlow::Continue(Ok(answer)) => answer,
            LookupControlFlow::Break(Ok(answer)) => answer,
            _ => unreachable!(),
        }
    }

    /// The error inside. The caller owes that there is one; the message
    /// tells the reader of the code why.
    pub fn expect_err(self, _message: &str) -> E
        requires { IsSome (err_value self) }
        ensures { err_value self ≡ Some result }
    {
        match self {
            LookupControlFlow::Continue(Err(error)) => error,
            LookupControlFlow::Break(Err(error)) => error,
            _ => unreachable!(),
        }
    }

    /// The answer inside. The caller owes that there is one.
    pub fn unwrap(self) -> AuthLookup
        requires { IsSome (ok_value self) }
        ensures { ok_value self ≡ Some result }
    {
        self.expect("an answer")
    }

    /// The error inside. The caller owes that there is one.
    pub fn unwrap_err(self) -> E
        requires { IsSome (err_value self) }
        ensures { err_value self ≡ Some result }
    {
        self.expect_err("an error")
    }

    /// The answer inside, or the empty one if there is none.
    pub fn unwrap_or_default(self) -> AuthLookup
    where
        E: Drop,
        ensures { result ≡ unwrap_or (ok_value self) AuthLookup.Empty }
    {
        match self.map_result() {
            Some(Ok(answer)) => answer,
            _ => AuthLookup::Empty,
        }
    }

    /// The same case, with what `op` makes of the answer inside; an error stays as it is.
    pub fn map<U, F: FnOnce(AuthLookup) -> U>(self, op: F) -> LookupControlFlow<U, E>
        requires { ForSome (ok_value self) (F.pre op) }
        ensures { KeepsCase (MapsOk (F.post op)) self result }
    {
        match self {
            LookupControlFlow::Continue(result) => LookupControlFlow::Continue(result.map(op)),
            LookupControlFlow::Break(result) => LookupControlFlow::Break(result.map(op)),
            LookupControlFlow::Skip => LookupControlFlow::Skip,
        }
    }

    /// The same case, with what `op` makes of the error inside; an answer stays as it is.
    pub fn map_err<U, F: FnOnce(E) -> U>(self, op: F) -> LookupControlFlow<AuthLookup, U>
        requires { ForSome (err_value self) (F.pre op) }
        ensures { KeepsCase (MapsErr (F.post op)) self result }
    {
        match self {
            LookupControlFlow::Continue(result) => LookupControlFlow::Continue(result.map_err(op)),
            LookupControlFlow::Break(result) => LookupControlFlow::Break(result.map_err(op)),
            LookupControlFlow::Skip => LookupControlFlow::Skip,
        }
    }
}
