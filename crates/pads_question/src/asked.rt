use pads_expr::Expr;
use pads_nodes::Steps;

/// What a question asks of each record: the nodes to which these steps lead from its body, of which the filter keeps
/// some, or all where there is none.
#[derive(Drop)]
pub struct Asked {
    pub steps: Steps,
    pub filter: Option<Expr>,
}
