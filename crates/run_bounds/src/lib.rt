//! Why a run never ends for want of turns: definitions and lemmas alone.
#![tactic(auto)]
