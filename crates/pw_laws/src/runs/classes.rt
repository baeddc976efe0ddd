ghost use Rattle.std.specs.Prelude.{◌≡◌, ◌≤◌, ◌∷◌, ℕ, List, None, Some};
ghost use Rattle.pw_class.specs.Queue as queue;
ghost use Rattle.pw_class.specs.declared.request.Request.{Request};
ghost use Rattle.pw_class.specs.declared.request.Taken.TheVariants.{Got};
ghost use Rattle.pw_paired.specs.Queues.{queue_of};
ghost use Rattle.pw_paired.specs.Server.{first_free, with_first_taken, with_job_at};
ghost use Rattle.pw_paired.specs.State.{Class, Job};
ghost use Rattle.pw_paired.specs.Terminal.{with_request};
ghost use Rattle.pw_paired.specs.Units.{has_request, only, request_in, without_requests};

/// What the paired state says of a class, the book of requests says of its queue: whether a
/// terminal has a request, what a process works on, and what sending, taking, answering, replying
/// and cancelling leave.
pub fn class_laws()
    ensures has { (n t : ℕ) (class : Class)
        → has_request t n class ≡ queue.has_request t (queue_of n class) }
    ensures works { (n i : ℕ) (class : Class) → 1 ≤ i → i ≤ n
        → queue.at_process (queue_of n class) i ≡ request_in (class.busy i) }
    ensures sent { (n : ℕ) (class : Class) (request : Request)
        → queue_of n (with_request request class) ≡ queue.with_request (queue_of n class) request }
    ensures taken { (n i : ℕ) (class : Class) (request : Request) (others : List Request)
        → class.waiting ≡ request ∷ others → first_free class.busy 1 n ≡ Some i
        → (queue.taken (queue_of n class) ≡ Got i request)
        × (queue_of n (with_first_taken i class.waiting class)
        ≡ queue.after_take (queue_of n class)) }
    ensures got { (n i : ℕ) (class : Class) (request : Request)
        → queue.taken (queue_of n class) ≡ Got i request
        → (first_free class.busy 1 n ≡ Some i)
        × ((others : List Request) × (class.waiting ≡ request ∷ others)) }
    ensures goes_on { (n i : ℕ) (class : Class) (job next : Job) → class.busy i ≡ Some job
        → next.request ≡ job.request
        → queue_of n (with_job_at i (Some next) class) ≡ queue_of n class }
    ensures replied { (n i : ℕ) (class : Class) → 1 ≤ i → i ≤ n
        → queue_of n (with_job_at i None class) ≡ queue.with_free (queue_of n class) i }
    ensures cancelled { (n t : ℕ) (class : Class)
        → queue_of n (without_requests (only t) class) ≡ queue.without t (queue_of n class) }
{}
