// The functions that a C or C++ program calls, on numbers and lists of bytes and words. A list goes as a pointer and a length. What is answered
// is the number of 01's refusal, 0 where nothing is refused.
#![tactic(auto)]

mod cells;
mod marks;
