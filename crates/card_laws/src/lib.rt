// What is proved of cards beyond the code's own contracts: what reading sets row by row, both round trips, what a card depends on, the largest card, and
// the bench examples. No code: the statements are in specs/, their proofs in proofs/. Which bytes are a card is said in book_card.
#![tactic(auto)]
