// Laws of `orders` and `orders_tree`: what their answers mean of nets that are read. There is no code here.
#![tactic(auto)]
