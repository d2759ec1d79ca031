// The one-call form on words and bytes is level Engine's: what it answers, writes and leaves. Laws only, in specs/.
#![tactic(auto)]
