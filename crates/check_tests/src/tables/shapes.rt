//! Children that are missing or out of place, and scalars.

use crate::tables::Row;

pub const SHAPE: &[Row] = &[
    ("(Program ~ [(ExpressionStatement (Identifier =a))])", "ok"),
    ("(Program ~ [_])", "/ Category"),
    ("(Program ~ [(ExpressionStatement _)])", "/0 Missing"),
    (
        "(Program ~ [(ExpressionStatement (SequenceExpression [(Identifier =a)]))])",
        "/0/0 Missing",
    ),
    ("(Program ~ [(VariableDeclaration =var [])])", "/0 Missing"),
    (
        "(Program ~ [(ExpressionStatement (TemplateLiteral [(TemplateElement =a) (TemplateElement \
         =c)] []))])",
        "/0/0 Missing",
    ),
    (
        "(Program ~ [(TryStatement (BlockStatement []) _ _)])",
        "/0 Missing",
    ),
    (
        "(Program ~ [(FunctionDeclaration - + (Identifier =f) [] (BlockStatement \
         [(ExpressionStatement (YieldExpression + _))]))])",
        "/0/1/0/0 Missing",
    ),
    (
        "(Program ~ [(FunctionDeclaration - - _ [] (BlockStatement []))])",
        "/0 Missing",
    ),
    (
        "(Program ~ [(ExportDefaultDeclaration (FunctionDeclaration - - _ [] (BlockStatement \
         [])))])",
        "ok",
    ),
    (
        "(Program ~ [(ClassDeclaration _ _ (ClassBody []))])",
        "/0 Missing",
    ),
    (
        "(Program ~ [(ExpressionStatement (BinaryExpression =+ (Identifier =a) \
         (EmptyStatement)))])",
        "/0/0 Category",
    ),
    (
        "(Program ~ [(ExpressionStatement (ArrayExpression [(Identifier =a) _]))])",
        "ok",
    ),
    (
        "(Program ~ [(ExpressionStatement (CallExpression - (Identifier =f) [(Identifier =a) \
         _]))])",
        "/0/0 Category",
    ),
    (
        "(Program ~ [(ExpressionStatement (CallExpression - (Identifier =f) [(Identifier =a) \
         (SpreadElement (Identifier =b))]))])",
        "ok",
    ),
    (
        "(Program ~ [(ExpressionStatement (NewExpression (Super) [(Identifier =a)]))])",
        "/0/0 Category",
    ),
    (
        "(Program ~ [(IfStatement (Identifier =a) (VariableDeclaration =let [(VariableDeclarator \
         (Identifier =c) _)]) _)])",
        "/0 Category",
    ),
    (
        "(Program ~ [(IfStatement (Identifier =a) (VariableDeclaration =var [(VariableDeclarator \
         (Identifier =c) _)]) _)])",
        "ok",
    ),
    (
        "(Program ~ [(ExportNamedDeclaration (VariableDeclaration =var [(VariableDeclarator \
         (Identifier =a) _)]) [(ExportSpecifier - (Identifier =b) (Identifier =c))] _)])",
        "/0 Category",
    ),
    (
        "(Program ~ [(ExportNamedDeclaration (VariableDeclaration =var [(VariableDeclarator \
         (Identifier =a) _)]) [] (Literal =string =m ~))])",
        "/0 Category",
    ),
    (
        "(Program ~ [(ImportDeclaration [(ImportDefaultSpecifier (Identifier =a))] (Literal \
         =number =1 ~))])",
        "/0 Category",
    ),
    (
        "(Program ~ [(ExpressionStatement (AssignmentExpression =+= (ArrayPattern []) (Identifier \
         =b)))])",
        "/0/0 Category",
    ),
    (
        "(Program ~ [(ExpressionStatement (AssignmentExpression == (ArrayPattern []) (Identifier \
         =b)))])",
        "ok",
    ),
    (
        "(Program ~ [(ExpressionStatement (UpdateExpression =++ - (ThisExpression)))])",
        "/0/0 Category",
    ),
    (
        "(Program ~ [(ClassDeclaration (Identifier =A) _ (ClassBody [(PropertyDefinition - - \
         (Identifier =b) (BinaryExpression =in (PrivateIdentifier =a) (Identifier =c)))]))])",
        "ok",
    ),
    (
        "(Program ~ [(ClassDeclaration (Identifier =A) _ (ClassBody [(PropertyDefinition - - \
         (Identifier =b) (BinaryExpression =+ (PrivateIdentifier =a) (Identifier =c)))]))])",
        "/0/2/0/1 Category",
    ),
    (
        "(Program ~ [(ClassDeclaration (Identifier =A) _ (ClassBody [(PropertyDefinition - - \
         (Identifier =b) (MemberExpression - - (Super) (PrivateIdentifier =a)))]))])",
        "/0/2/0/1 Category",
    ),
    (
        "(Program ~ [(ClassDeclaration (Identifier =A) _ (ClassBody [(PropertyDefinition - - \
         (PrivateIdentifier =constructor) (Literal =number =1 ~))]))])",
        "/0/2/0 Category",
    ),
    (
        "(Program ~ [(ExpressionStatement (ObjectExpression [(Property =init - - - \
         (PrivateIdentifier =c) (Identifier =b))]))])",
        "/0/0/0 Category",
    ),
    (
        "(Program ~ [(ExpressionStatement (ObjectExpression [(Property =init - - - (Literal \
         =boolean + ~) (Identifier =b))]))])",
        "/0/0/0 Category",
    ),
    (
        "(Program ~ [(ForOfStatement - (Literal =string =c ~) (Identifier =b) (EmptyStatement))])",
        "/0 Category",
    ),
    (
        "(Program ~ [(ExpressionStatement (ObjectExpression [(Property =init + - - (Identifier \
         =a) (Identifier =b))]))])",
        "/0/0/0 Category",
    ),
    (
        "(Program ~ [(ExpressionStatement (ChainExpression (Identifier =c)))])",
        "/0/0 Category",
    ),
    (
        "(Program ~ [(FunctionDeclaration - - (Identifier =f) [(ArrayPattern [(MemberExpression - \
         - (Identifier =b) (Identifier =c))])] (BlockStatement []))])",
        "/0/1 Category",
    ),
    (
        "(Program ~ [(ExpressionStatement (AssignmentExpression == (ArrayPattern \
         [(MemberExpression - - (Identifier =b) (Identifier =c))]) (Identifier =b)))])",
        "ok",
    ),
    (
        "(Program ~ [(ExpressionStatement (Identifier =a)) (Program ~ [])])",
        "/ Category",
    ),
];

pub const SCALARS: &[Row] = &[
    (
        "(Program ~ [(ExpressionStatement (Identifier ~))])",
        "/0/0 Scalar",
    ),
    (
        "(Program ~ [(ExpressionStatement (BinaryExpression == (Identifier =a) (Identifier \
         =b)))])",
        "/0/0 Scalar",
    ),
    (
        "(Program ~ [(ExpressionStatement (AssignmentExpression =+ (Identifier =a) (Identifier \
         =b)))])",
        "/0/0 Scalar",
    ),
    (
        "(Program ~ [(ExpressionStatement (UnaryExpression =in (Identifier =a)))])",
        "/0/0 Scalar",
    ),
    (
        "(Program ~ [(ExpressionStatement (LogicalExpression =& (Identifier =a) (Identifier \
         =b)))])",
        "/0/0 Scalar",
    ),
    (
        "(Program ~ [(VariableDeclaration =auto [(VariableDeclarator (Identifier =a) _)])])",
        "/0 Scalar",
    ),
    (
        "(Program ~ [(ExpressionStatement (ObjectExpression [(Property =method - - - (Identifier \
         =a) (Identifier =b))]))])",
        "/0/0/0 Scalar",
    ),
    (
        "(Program ~ [(ExpressionStatement (ObjectExpression [(Property =init + + - (Identifier \
         =a) (FunctionExpression - - _ [] (BlockStatement [])))]))])",
        "/0/0/0 Scalar",
    ),
    (
        "(Program ~ [(ExpressionStatement (ObjectExpression [(Property =get + - - (Identifier =a) \
         (FunctionExpression - - _ [] (BlockStatement [])))]))])",
        "/0/0/0 Scalar",
    ),
    (
        "(Program ~ [(ExpressionStatement (ObjectExpression [(Property =init - + + (Identifier \
         =a) (Identifier =a))]))])",
        "/0/0/0 Scalar",
    ),
    (
        "(Program ~ [(ExpressionStatement (AssignmentExpression == (ObjectPattern \
         [(AssignmentProperty + + (Identifier =a) (Identifier =a))]) (Identifier =b)))])",
        "/0/0/0/0 Scalar",
    ),
    (
        "(Program ~ [(ExpressionStatement (Literal =number =1 =g))])",
        "/0/0 Scalar",
    ),
    (
        "(Program ~ [(ExpressionStatement (Literal =regexp =a ~))])",
        "/0/0 Scalar",
    ),
    (
        "(Program ~ [(ExpressionStatement (Literal =boolean =true ~))])",
        "/0/0 Scalar",
    ),
    (
        "(Program ~ [(ExpressionStatement (Literal =null - ~))])",
        "/0/0 Scalar",
    ),
    ("(Program ~ [(Directive =a)])", "ok"),
    (
        "(Program ~ [(ExpressionStatement (CallExpression - (Identifier =a) [(Literal =float =1 \
         ~)]))])",
        "/0/0/1 Scalar",
    ),
    (
        "(Program ~ [(ExpressionStatement (MetaProperty =import.target))])",
        "/0/0 Scalar",
    ),
    (
        "(Program ~ [(ClassDeclaration (Identifier =A) _ (ClassBody [(MethodDefinition =init - - \
         (Identifier =b) (FunctionExpression - - _ [] (BlockStatement [])))]))])",
        "/0/2/0 Scalar",
    ),
    (
        "(Program + [(ExpressionStatement (Identifier =a))])",
        "/ Scalar",
    ),
    (
        "(Program ~ [(ExpressionStatement (ArrowFunctionExpression ~ [] (Identifier =a)))])",
        "/0/0 Scalar",
    ),
];
