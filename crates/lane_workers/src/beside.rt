// Workers in a scope, beside a task that writes through borrows, whose outcome is known afterwards.
ghost use Rattle.std.specs.Prelude.{◌≡◌};

use std::sync::Wait;
use std::thread;
use std::thread::Threads;

/// What runs in a thread of its own.
pub(crate) trait Job {
    fn work(self);
}

/// What runs in the caller's thread. A scope says nothing of a borrow that its closure holds, so the closure
/// holds a value of a type parameter.
pub(crate) trait Task {
    type Output;

    ghost can_run: { Self → Type 0 };

    ghost run_gives: { Self → Self.Output → Type 0 };

    fn run(self) -> Self::Output
        requires { can_run self }
        ensures { run_gives self result };
}

/// Runs each job in a thread, or here where none can be made, and then the task.
pub(crate) fn run_beside<R: Threads + Wait + Sync, J: Job + Send + Drop, S: Task + Drop>(
    rt: &R,
    jobs: Vec<J>,
    task: S,
) -> S::Output
    requires { S.can_run task }
    ensures { S.run_gives task result }
{
    thread::scope(
        thread::scope_env(),
        rt,
        move |scope| -> S::Output
            requires { S.can_run task }
            ensures { S.run_gives task result }
        {
            for job in jobs {
                if let Err(refused) = scope.spawn(move || job.work()) {
                    (refused.value)();
                }
            }
            task.run()
        },
    )
}
