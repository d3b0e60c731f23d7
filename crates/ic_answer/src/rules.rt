/// What a firing does, in words and as a picture (Lafont 1997).
pub const RULES: &str =
    "Two agents whose principal ports a wire joins are an active pair; the one with the lesser name, a, leads, the other is b.
Firing takes both away. Their children have a's name, a dot and a digit. Below c2 is the child with digit 2 and c2.1 its port 1;
port 0 is the principal one. g.1 stands for what port 1 of g is joined to. In the pictures port 1 is left, port 2 right.
gamma g, delta d: children c0 D, c1 D, c2 G, c3 G; joined are
  c0.0 to g.1, c1.0 to g.2, c2.0 to d.1, c3.0 to d.2, c0.1 to c2.1, c0.2 to c3.1, c1.1 to c2.2, c1.2 to c3.2

       x   y                x         y
        \\ /                 |         |
         G 0              D 0.0     D 0.1
         |        to        |  \\   /  |
         D 1                |    X    |
        / \\                 |  /   \\  |
       u   v              G 0.2     G 0.3
                            |         |
                            u         v

gamma or delta k, epsilon: children c0 E, c1 E; joined are c0.0 to k.1, c1.0 to k.2
gamma, gamma: no children; joined are a.1 to b.2, a.2 to b.1; behind @straight; a.1 to b.1, a.2 to b.2
delta, delta: no children; joined are a.1 to b.1, a.2 to b.2
epsilon, epsilon: nothing
";
