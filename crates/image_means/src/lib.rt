// What the tests of an image answer where words mean an engine of a run: the header, and what all tests share. Laws only, in specs/.
#![tactic(auto)]
