// *The desk too*: a book in runs, some of them built up step by step at a desk, ends as the book does. There is no code here.
#![tactic(auto)]
