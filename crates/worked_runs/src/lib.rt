// Calls of the library put together, seeing their contracts alone; and runs of demand 3 worked out, in specs/.
// Not here: the demands themselves (demands), which hold of every run.
#![tactic(auto)]

ghost use Rattle.std.specs.Prelude.{◌≡◌, [], ◌∷◌, map};
ghost use Rattle.refusal.specs.Number.{number_of, done};
ghost use Rattle.refusal.specs.declared.Refusal.TheVariants.{Replay};
ghost use Rattle.key_book.specs.Book.{book_of};
ghost use Rattle.demands.specs.Demand3.{answers, ending};
ghost use Rattle.worked_runs.specs.Calls.{alone, again, answer_number, buffer_of};

// The numbers of three calls: `check_again`'s clauses speak of these, and no `Result` of three kinds would be plainer.
#[derive(Clone, Copy, Debug, PartialEq, Eq)]
pub struct Numbers {
    pub first: u8,
    pub sealed: u8,
    pub second: u8,
}

// Checks a message, seals another, and checks the first message again. The three calls make up the run `again` of demand 3: their numbers, the sealed buffer,
// the marks and the counters are the run's; and where the first check accepts, the second refuses with 11. The lists come one by one, as check and seal take
// them.
pub fn check_again(
    ids: &[u32],
    lengths: &[u8],
    store: &[u8],
    marks: &mut [u8],
    received: &mut [u64],
    sent: &mut [u64],
    rows: usize,
    message: &[u8],
    id: u32,
    buffer: &mut [u8],
) -> Numbers
    ensures numbers { let b = book_of ids.now lengths.now store.now marks.old received.old sent.old rows in
        result.first ∷ result.sealed ∷ result.second ∷ [] ≡ map answer_number (answers (alone b) (again message.now id buffer.old)) }
    ensures sealed { let b = book_of ids.now lengths.now store.now marks.old received.old sent.old rows in
        buffer.new ≡ buffer_of (answers (alone b) (again message.now id buffer.old)) }
    ensures marks { let b = book_of ids.now lengths.now store.now marks.old received.old sent.old rows in
        marks.new ≡ (ending (alone b) (again message.now id buffer.old)).book.marks }
    ensures received { let b = book_of ids.now lengths.now store.now marks.old received.old sent.old rows in
        received.new ≡ (ending (alone b) (again message.now id buffer.old)).book.received }
    ensures sent { let b = book_of ids.now lengths.now store.now marks.old received.old sent.old rows in
        sent.new ≡ (ending (alone b) (again message.now id buffer.old)).book.sent }
    ensures replay { result.first ≡ done → result.second ≡ number_of Replay }
{
    let first = delayed_auth::check(ids, lengths, store, marks, received, sent, rows, message);
    let sealing = delayed_auth::seal(ids, lengths, store, marks, received, sent, rows, id, buffer);
    let second = delayed_auth::check(ids, lengths, store, marks, received, sent, rows, message);
    Numbers {
        first: refusal::result_number(first),
        sealed: refusal::result_number(sealing),
        second: refusal::result_number(second),
    }
}
