//! Comments.

use crate::tables::Row;

pub const COMMENTS: &[Row] = &[
    (
        "(Program ~ [(ExpressionStatement (Identifier =a))] {b*b})",
        "/ CommentPlace",
    ),
    (
        "(Program ~ [(ExpressionStatement (Identifier =a))] {i*b})",
        "ok",
    ),
    ("(Program ~ [] {i*b})", "ok"),
    (
        "(Program ~ [(ExpressionStatement (Identifier =a {i*b}))])",
        "/0/0 CommentPlace",
    ),
    (
        "(Program ~ [(ExpressionStatement (Identifier =a {b*b}))])",
        "ok",
    ),
    (
        "(Program ~ [(ExpressionStatement (CallExpression - (Identifier =f) [] {i*b}))])",
        "ok",
    ),
    (
        "(Program ~ [(ExpressionStatement (ThisExpression {i*b}))])",
        "/0/0 CommentPlace",
    ),
    ("(Program ~ [(EmptyStatement {i*b})])", "/0 CommentPlace"),
    ("(Program ~ [(DebuggerStatement {i*b})])", "ok"),
    ("(Program ~ [(Directive =a {i*b})])", "ok"),
    (
        "(Program ~ [(ExpressionStatement (ObjectExpression [(Property =init - + - (Identifier =a \
         {b*b}) (Identifier =a))]))])",
        "/0/0/0/0 CommentPlace",
    ),
    (
        "(Program ~ [(ExpressionStatement (ObjectExpression [(Property =init - + - (Identifier \
         =a) (Identifier =a {b*b}))]))])",
        "ok",
    ),
    (
        "(Program ~ [(ExpressionStatement (ObjectExpression [(Property =init - + - (Identifier \
         =a) (Identifier =a) {i*b})]))])",
        "/0/0/0 CommentPlace",
    ),
    (
        "(Program ~ [(ExpressionStatement (AssignmentExpression == (ObjectPattern \
         [(AssignmentProperty + - (Identifier =a) (AssignmentPattern (Identifier =a) (Literal \
         =number =1 ~)) {i*b})]) (Identifier =b)))])",
        "ok",
    ),
    (
        "(Program ~ [(VariableDeclaration =var [(VariableDeclarator (Identifier =a) _ {i*b})])])",
        "/0/0 CommentPlace",
    ),
    (
        "(Program ~ [(VariableDeclaration =var [(VariableDeclarator (Identifier =a) (Literal \
         =number =1 ~) {i*b})])])",
        "ok",
    ),
    (
        "(Program ~ [(ExpressionStatement (TemplateLiteral [(TemplateElement =a {b*b}) \
         (TemplateElement =c)] [(Identifier =b)]))])",
        "/0/0/0 CommentPlace",
    ),
    (
        "(Program ~ [(ExpressionStatement (TemplateLiteral [(TemplateElement =a {a*b}) \
         (TemplateElement =c)] [(Identifier =b)]))])",
        "ok",
    ),
    (
        "(Program ~ [(ExpressionStatement (TemplateLiteral [(TemplateElement =a) (TemplateElement \
         =c {b*b})] [(Identifier =b)]))])",
        "ok",
    ),
    (
        "(Program ~ [(ExpressionStatement (TemplateLiteral [(TemplateElement =a) (TemplateElement \
         =c {a*b})] [(Identifier =b)]))])",
        "/0/0/1 CommentPlace",
    ),
    (
        "(Program ~ [(ExpressionStatement (TemplateLiteral [(TemplateElement =a) (TemplateElement \
         =c)] [(Identifier =b)] {i*b}))])",
        "/0/0 CommentPlace",
    ),
    (
        "(Program ~ [(ExpressionStatement (ArrowFunctionExpression - [] (BlockStatement []) \
         {i*b}))])",
        "ok",
    ),
    (
        "(Program ~ [(ImportDeclaration [(ImportDefaultSpecifier (Identifier =a) {i*b})] (Literal \
         =string =m ~))])",
        "/0/0 CommentPlace",
    ),
    (
        "(Program ~ [(ImportDeclaration [(ImportSpecifier + (Identifier =a) (Identifier =a) \
         {i*b})] (Literal =string =m ~))])",
        "/0/0 CommentPlace",
    ),
    (
        "(Program ~ [(ImportDeclaration [(ImportNamespaceSpecifier (Identifier =a) {i*b})] \
         (Literal =string =m ~))])",
        "ok",
    ),
    (
        "(Program ~ [(ExpressionStatement (Identifier =a {b**/}))])",
        "/0/0 CommentText",
    ),
    (
        "(Program ~ [(ExpressionStatement (Identifier =a {b**}))])",
        "ok",
    ),
    (
        "(Program ~ [(ExpressionStatement (Identifier =a {a/b%000ac}))])",
        "/0/0 CommentText",
    ),
    (
        "(Program ~ [(ExpressionStatement (Identifier =a {a/*/}))])",
        "ok",
    ),
    (
        "(Program ~ [(ExpressionStatement (Identifier =a {a*b%000ac}))])",
        "ok",
    ),
    (
        "(Program ~ [(ExpressionStatement (Identifier =a {a/%d800}))])",
        "/0/0 CommentText",
    ),
    (
        "(Program ~ [(LabeledStatement (Identifier =l) (ForStatement _ _ _ (BreakStatement \
         (Identifier =l {b/a}))))])",
        "/0/1/3/0 LineGap",
    ),
    (
        "(Program ~ [(LabeledStatement (Identifier =l) (ForStatement _ _ _ (ContinueStatement \
         (Identifier =l {b*a%000ab}))))])",
        "/0/1/3/0 LineGap",
    ),
    (
        "(Program ~ [(LabeledStatement (Identifier =l) (ForStatement _ _ _ (BreakStatement \
         (Identifier =l {b*a}))))])",
        "ok",
    ),
    (
        "(Program ~ [(LabeledStatement (Identifier =l) (ForStatement _ _ _ (BreakStatement \
         (Identifier =l {a/a}))))])",
        "ok",
    ),
    (
        "(Program ~ [(ExpressionStatement (ObjectExpression [(Property =init + - - (Identifier =a \
         {b/b}) (FunctionExpression + - _ [] (BlockStatement [])))]))])",
        "/0/0/0/0 LineGap",
    ),
    (
        "(Program ~ [(ExpressionStatement (ObjectExpression [(Property =init + - - (Identifier =a \
         {b/b}) (FunctionExpression + + _ [] (BlockStatement [])))]))])",
        "ok",
    ),
    (
        "(Program ~ [(ExpressionStatement (ObjectExpression [(Property =init + - + (Identifier =a \
         {b/b}) (FunctionExpression + - _ [] (BlockStatement [])))]))])",
        "ok",
    ),
    (
        "(Program ~ [(ClassDeclaration (Identifier =A) _ (ClassBody [(MethodDefinition =method - \
         - (Identifier =a {b/b}) (FunctionExpression + - _ [] (BlockStatement [])))]))])",
        "/0/2/0/0 LineGap",
    ),
    (
        "(Program ~ [(ClassDeclaration (Identifier =A) _ (ClassBody [(MethodDefinition =method + \
         - (Identifier =a {b/b}) (FunctionExpression + - _ [] (BlockStatement [])))]))])",
        "ok",
    ),
    (
        "(Program ~ [(ExpressionStatement (ObjectExpression [(Property =init + - - (Identifier =a \
         {b/b}) (FunctionExpression - - _ [] (BlockStatement [])))]))])",
        "ok",
    ),
];
