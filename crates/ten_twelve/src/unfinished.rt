// The runs that lack elements.
ghost use Rattle.std.specs.Prelude.{◌≡◌, ◌≤◌, ◌+◌, ◌++◌, ◌∷◌, [], None, option_map, length as len};
ghost use Rattle.std.specs.Option.{ForSome};
ghost use Rattle.ten_twelve.specs.Unfinished.{AreUnfinished, completed_run, next_pending, new_run, pending_of, pending_view, unfinished_runs};
ghost use Rattle.ten_twelve.specs.Run.{IsRunLength};

// A run that lacks elements: where its first element starts, and how many elements it has.
#[derive(Clone, Copy)]
pub(crate) struct UnfinishedRun {
    pub(crate) start: u64,
    pub(crate) count: u64,
}

// The runs that lack elements: the latest, and the one before it, if it runs over a front.
#[derive(Clone, Copy)]
pub(crate) struct Unfinished {
    pub(crate) older: Option<UnfinishedRun>,
    pub(crate) latest: Option<UnfinishedRun>,
}

impl Unfinished {
    // The runs that lack elements after one more element, and the one that it completes.
    pub(crate) fn with_element(
        self,
        length: u64,
        front: bool,
        start: u64,
    ) -> (Option<UnfinishedRun>, Unfinished)
        requires long { 2 ≤ length }
        requires length { IsRunLength length }
        requires unfinished { AreUnfinished length self }
        requires few { len (next_pending length (pending_of self) front start) ≤ 2 }
        ensures whole { option_map pending_view result.0 ≡ completed_run length (pending_of self) }
        ensures pending { pending_of result.1 ≡ next_pending length (pending_of self) front start }
        ensures within { AreUnfinished length result.1 }
    {
        let begins = front || self.latest.is_none();
        let (whole, left) = self.with_one_more(length);
        if begins {
            (whole, left.with_new(length, start))
        } else {
            (whole, left)
        }
    }

    // Counts one element more to each run, and takes the oldest out if it has all its elements.
    fn with_one_more(self, length: u64) -> (Option<UnfinishedRun>, Unfinished)
        requires length { IsRunLength length }
        requires unfinished { AreUnfinished length self }
        ensures whole { option_map pending_view result.0 ≡ completed_run length (pending_of self) }
        ensures others { pending_of result.1 ≡ unfinished_runs length (pending_of self) }
        ensures within { AreUnfinished length result.1 }
        ensures latest { ForSome result.1.latest (λ run. 2 ≤ run.count) }
    {
        let older = self.older.map(UnfinishedRun::grown);
        let latest = self.latest.map(UnfinishedRun::grown);
        match (older, latest) {
            (Some(run), _) if run.count == length => (
                Some(run),
                Unfinished {
                    older: None,
                    latest,
                },
            ),
            (None, Some(run)) if run.count == length => (
                Some(run),
                Unfinished {
                    older: None,
                    latest: None,
                },
            ),
            _ => (None, Unfinished { older, latest }),
        }
    }

    // Puts a new run of one element behind at most one other.
    fn with_new(self, length: u64, start: u64) -> Unfinished
        requires length { 2 ≤ length }
        requires unfinished { AreUnfinished length self }
        requires room { self.older ≡ None }
        requires latest { ForSome self.latest (λ run. 2 ≤ run.count) }
        ensures value { pending_of result ≡ pending_of self ++ new_run start ∷ [] }
        ensures within { AreUnfinished length result }
    {
        Unfinished {
            older: self.latest,
            latest: Some(UnfinishedRun { start, count: 1 }),
        }
    }
}

impl UnfinishedRun {
    // One element more.
    fn grown(self) -> UnfinishedRun
        requires { self.count ≤ 15 }
        ensures { result ≡ record { start = self.start; count = self.count + 1 } }
    {
        UnfinishedRun {
            start: self.start,
            count: self.count + 1,
        }
    }
}
