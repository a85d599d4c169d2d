ghost use Rattle.std.specs.Prelude.{◌≡◌, None, IfOk};
ghost use Rattle.query_model.specs.Refused.{sooner};
ghost use Rattle.bind_scope.specs.Reported.{reported};

use crate::fault::Fault;
use own_model::Refusal;
use std::alloc::{AllocError, Global};
use std::marker::Model;

/// The fault that is reported of those noted so far: the first of the lowest rank. Contracts see it as its refusal.
#[derive(Debug, Drop)]
pub struct Least<'a> {
    fault: Option<Fault<'a>>,
}

impl<'a> Model for Least<'a> {
    ghost use Rattle.std.specs.Prelude.{Option, option_map};
    ghost use Rattle.own_model.specs.declared.refusal.Refusal.{Refusal as Seen};
    ghost use Rattle.bind_scope.specs.Reported.{reported};

    ghost Value = { Option Seen };

    ghost view = { λ least. option_map reported least.fault };
}

impl<'a> Least<'a> {
    /// No fault so far.
    pub fn new() -> Least<'a>
        ensures { result ≡ None }
    {
        Least { fault: None }
    }

    /// Notes a fault: it takes the place of the one that is kept where its rank is lower.
    pub fn note(&mut self, fault: Fault<'a>)
        ensures { self.new ≡ sooner self.old (reported fault.entry) }
    {
        match &self.fault {
            None => self.fault = Some(fault),
            Some(first) => {
                if fault.rank() < first.rank() {
                    self.fault = Some(fault);
                }
            }
        }
    }

    /// The refusal that tells it, where there is one.
    pub fn refusal(&self, alloc: Global) -> Result<Option<Refusal>, AllocError>
        ensures { IfOk result (λ reported. reported ≡ self.now) }
    {
        match &self.fault {
            None => Ok(None),
            Some(fault) => Ok(Some(fault.refusal(alloc)?)),
        }
    }
}
