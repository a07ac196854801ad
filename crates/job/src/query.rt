// What a search or a read-through is asked: a job, and which of its actions the caller may use.
ghost use Rattle.std.specs.Prelude.{◌≡◌, ◌<◌};
ghost use Rattle.model.specs.Bits.{bit};

use super::Job;
use std::marker::Model;

// The actions that the caller may use have one bit each. A clause sees the query of the model.
#[derive(Clone, Drop)]
pub struct Query<'a> {
    job: Job<'a>,
    usable: u64,
}

impl<'a> Model for Query<'a> {
    ghost use Rattle.model.specs.search.Query.{query};
    ghost use Rattle.model.specs.search.Query.{Query as Asked};

    ghost Value = { Asked };

    ghost view = { λ q. query q.job q.usable };
}

impl<'a> Query<'a> {
    ghost use Rattle.model.specs.search.Query.{query};

    pub fn new(job: Job<'a>, usable: u64) -> Query<'a>
        ensures { result ≡ query job.entry usable }
    {
        Query { job, usable }
    }

    pub fn job(&self) -> &Job<'a>
        ensures { result.now ≡ self.now.bytes }
    {
        &self.job
    }

    pub fn usable(&self) -> u64
        ensures { result ≡ self.now.usable }
    {
        self.usable
    }

    // Whether the caller may use action i.
    pub fn may_use(&self, i: u8) -> bool
        requires { i < 64 }
        ensures { result ≡ bit self.now.usable i }
    {
        bits::bit_at(self.usable, i)
    }
}
