//! What holds of every machine over bytes.
ghost use Rattle.std.specs.Prelude.{◌≡◌, ◌<◌, ℕ, List, [], ◌++◌, length, drop};
ghost use Rattle.pgw_machine.specs.Course.{Front as TheFront, More, Bad, Whole, Course, Waits, Over, Rules, IsReading, IsSteady, onto, run, sent_of, WantsMore, map_course, IsView};
ghost use Rattle.pgw_machine.specs.Fronts.{IsReadAs};
ghost use Rattle.pgw_machine.specs.Play.{Leads, play_of};

/// However the bytes are cut, the machine comes to the same.
pub fn cuts_do_not_matter<S, R, M, E>()
    ensures { (rules : Rules S R M E) (course : Course S R) (xs ys : List ℕ) →
        run rules course (xs ++ ys) ≡ run rules (run rules course xs) ys }
{}

/// A machine that has ended takes no more.
pub fn an_end_stays<S, R, M, E>()
    ensures { (rules : Rules S R M E) (ending : R) (sent bytes : List ℕ) →
        run rules (Over ending sent) bytes ≡ Over ending sent }
{}

/// The bytes put out only grow.
pub fn bytes_put_out_stay<S, R, M, E>()
    ensures { (rules : Rules S R M E) (course : Course S R) (bytes : List ℕ) → (more : List ℕ)
        × (sent_of (run rules course bytes) ≡ sent_of course ++ more) }
{}

/// What a machine does that reads steadily is told by what stands at the front of its bytes.
pub fn the_front_decides<S, R, M, E>()
    // It waits for a message,
    ensures more { (rules : Rules S R M E) → IsSteady rules → (state : S) (sent bytes : List ℕ) →
        rules.read state bytes ≡ More → run rules (Waits state sent []) bytes
        ≡ Waits state sent bytes }
    // or ends by a refusal,
    ensures bad { (rules : Rules S R M E) → IsSteady rules →
        (state : S) (sent bytes : List ℕ) (why : E) → rules.read state bytes ≡ Bad why →
        run rules (Waits state sent []) bytes ≡ Over (rules.bad state why) sent }
    // or takes a message, and goes on with the bytes behind it.
    ensures whole { (rules : Rules S R M E) → IsSteady rules →
        (state : S) (sent bytes : List ℕ) (m : M) (len : ℕ) → rules.read state bytes ≡ Whole m len →
        run rules (Waits state sent []) bytes
        ≡ run rules (onto sent (rules.step state m)) (drop len bytes) }
{}

/// A machine that reads steadily takes all that is whole: what it waits with is no message yet.
pub fn nothing_whole_is_left<S, R, M, E>()
    ensures { (rules : Rules S R M E) → IsSteady rules → (course : Course S R) (bytes : List ℕ) →
        WantsMore rules course → WantsMore rules (run rules course bytes) }
{}

/// A machine that is a view of another runs as the other does.
pub fn views_run_alike<S, T, Q, R, M, E>()
    ensures { (f : S → T) (g : Q → R) (first : Rules S Q M E) (second : Rules T R M E) →
        IsView f g first second → (course : Course S Q) (bytes : List ℕ) →
        run second (map_course f g course) bytes ≡ map_course f g (run first course bytes) }
{}

/// Where the steps are a function, such a machine is led where the function's machine runs.
pub fn where_steps_are_a_function<S, R, M, E>()
    ensures { (rules : Rules S R M E) → IsSteady rules →
        (state : S) (bytes : List ℕ) (course : Course S R) →
        Leads (play_of rules) state bytes course → run rules (Waits state [] []) bytes ≡ course }
{}

/// A front of a message is no message yet.
pub fn fronts_wait<M, E>()
    ensures { (read : List ℕ → TheFront M E) (g front more : List ℕ) (m : M) → IsReading read →
        IsReadAs read g m → g ≡ front ++ more → length front < length g → read front ≡ More }
{}

/// Where a function's machine runs, there its bytes lead.
pub fn a_function_leads_where_it_runs<S, R, M, E>()
    ensures { (rules : Rules S R M E) → IsSteady rules → (state : S) (bytes : List ℕ) →
        Leads (play_of rules) state bytes (run rules (Waits state [] []) bytes) }
{}
