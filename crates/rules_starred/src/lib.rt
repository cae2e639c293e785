// The ★ examples of document 01, of hub and book, as one list checked by one theorem. No code: `specs/Starred.antt`.

#![tactic(auto)]
