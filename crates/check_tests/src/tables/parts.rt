//! Declarations, methods, chains, surroundings, branches and imports.

use crate::tables::Row;

pub const DECLARATIONS: &[Row] = &[
    (
        "(Program ~ [(VariableDeclaration =const [(VariableDeclarator (Identifier =a) _)])])",
        "/0/0 Initializer",
    ),
    (
        "(Program ~ [(VariableDeclaration =let [(VariableDeclarator (Identifier =a) _)])])",
        "ok",
    ),
    (
        "(Program ~ [(VariableDeclaration =var [(VariableDeclarator (ArrayPattern [(Identifier \
         =a)]) _)])])",
        "/0/0 Initializer",
    ),
    (
        "(Program ~ [(ForStatement (VariableDeclaration =const [(VariableDeclarator (Identifier \
         =a) _)]) _ _ (EmptyStatement))])",
        "/0/0/0 Initializer",
    ),
    (
        "(Program ~ [(ForOfStatement - (VariableDeclaration =let [(VariableDeclarator (Identifier \
         =a) _)]) (Identifier =b) (EmptyStatement))])",
        "ok",
    ),
    (
        "(Program ~ [(ForOfStatement - (VariableDeclaration =let [(VariableDeclarator (Identifier \
         =a) (Identifier =c))]) (Identifier =b) (EmptyStatement))])",
        "/0/0/0 Initializer",
    ),
    (
        "(Program ~ [(ForInStatement (VariableDeclaration =const [(VariableDeclarator (Identifier \
         =a) _) (VariableDeclarator (Identifier =c) _)]) (Identifier =b) (EmptyStatement))])",
        "/0/0 Initializer",
    ),
    (
        "(Program ~ [(ForOfStatement - (VariableDeclaration =const [(VariableDeclarator \
         (ArrayPattern [(Identifier =a)]) _)]) (Identifier =b) (EmptyStatement))])",
        "ok",
    ),
    (
        "(Program ~ [(ExpressionStatement (AssignmentExpression == (ArrayPattern [(RestElement \
         (Identifier =b)) (Identifier =a)]) (Identifier =c)))])",
        "/0/0/0/0 RestLast",
    ),
    (
        "(Program ~ [(FunctionDeclaration - - (Identifier =f) [(RestElement (Identifier =b)) \
         (Identifier =a)] (BlockStatement []))])",
        "/0/1 RestLast",
    ),
    (
        "(Program ~ [(VariableDeclaration =var [(VariableDeclarator (ObjectPattern [(RestElement \
         (Identifier =b)) (AssignmentProperty + - (Identifier =a) (Identifier =a))]) (Identifier \
         =c))])])",
        "/0/0/0/0 RestLast",
    ),
    (
        "(Program ~ [(VariableDeclaration =var [(VariableDeclarator (ObjectPattern \
         [(AssignmentProperty - - (Identifier =a) (RestElement (Identifier =d)))]) (Identifier \
         =c))])])",
        "/0/0/0/0 Category",
    ),
    (
        "(Program ~ [(VariableDeclaration =var [(VariableDeclarator (ArrayPattern [(RestElement \
         (Identifier =a)) _]) (Identifier =b))])])",
        "/0/0/0/0 RestLast",
    ),
];

pub const METHODS: &[Row] = &[
    (
        "(Program ~ [(ExpressionStatement (ObjectExpression [(Property =init + - - (Identifier \
         =a) (FunctionExpression - - (Identifier =b) [] (BlockStatement [])))]))])",
        "/0/0/0 Method",
    ),
    (
        "(Program ~ [(ExpressionStatement (ObjectExpression [(Property =get - - - (Identifier =a) \
         (FunctionExpression - - _ [(Identifier =b)] (BlockStatement [])))]))])",
        "/0/0/0 Method",
    ),
    (
        "(Program ~ [(ExpressionStatement (ObjectExpression [(Property =set - - - (Identifier =a) \
         (FunctionExpression - - _ [] (BlockStatement [])))]))])",
        "/0/0/0 Method",
    ),
    (
        "(Program ~ [(ExpressionStatement (ObjectExpression [(Property =set - - - (Identifier =a) \
         (FunctionExpression - - _ [(RestElement (Identifier =b))] (BlockStatement [])))]))])",
        "/0/0/0 Method",
    ),
    (
        "(Program ~ [(ExpressionStatement (ObjectExpression [(Property =set - - - (Identifier =a) \
         (FunctionExpression - - _ [(AssignmentPattern (Identifier =b) (Literal =number =1 ~))] \
         (BlockStatement [])))]))])",
        "ok",
    ),
    (
        "(Program ~ [(ExpressionStatement (ObjectExpression [(Property =get - - - (Identifier =a) \
         (FunctionExpression + - _ [] (BlockStatement [])))]))])",
        "/0/0/0 Method",
    ),
    (
        "(Program ~ [(ClassDeclaration (Identifier =A) _ (ClassBody [(MethodDefinition =set - - \
         (Identifier =a) (FunctionExpression - + _ [(Identifier =b)] (BlockStatement [])))]))])",
        "/0/2/0 Method",
    ),
    (
        "(Program ~ [(ClassDeclaration (Identifier =A) _ (ClassBody [(MethodDefinition =method - \
         - (Identifier =constructor) (FunctionExpression - - _ [] (BlockStatement [])))]))])",
        "/0/2/0 Method",
    ),
    (
        "(Program ~ [(ClassDeclaration (Identifier =A) _ (ClassBody [(MethodDefinition =method - \
         - (Literal =string =constructor ~) (FunctionExpression - - _ [] (BlockStatement \
         [])))]))])",
        "/0/2/0 Method",
    ),
    (
        "(Program ~ [(ClassDeclaration (Identifier =A) _ (ClassBody [(MethodDefinition \
         =constructor - - (Identifier =a) (FunctionExpression - - _ [] (BlockStatement \
         [])))]))])",
        "/0/2/0 Method",
    ),
    (
        "(Program ~ [(ClassDeclaration (Identifier =A) _ (ClassBody [(MethodDefinition =method + \
         - (Identifier =constructor) (FunctionExpression - - _ [] (BlockStatement [])))]))])",
        "ok",
    ),
    (
        "(Program ~ [(ClassDeclaration (Identifier =A) _ (ClassBody [(MethodDefinition \
         =constructor + - (Identifier =constructor) (FunctionExpression - - _ [] (BlockStatement \
         [])))]))])",
        "/0/2/0 Method",
    ),
    (
        "(Program ~ [(ClassDeclaration (Identifier =A) _ (ClassBody [(MethodDefinition =get - - \
         (Identifier =constructor) (FunctionExpression - - _ [] (BlockStatement [])))]))])",
        "ok",
    ),
    (
        "(Program ~ [(ClassDeclaration (Identifier =A) _ (ClassBody [(MethodDefinition =method - \
         + (Literal =string =constructor ~) (FunctionExpression - - _ [] (BlockStatement \
         [])))]))])",
        "ok",
    ),
    (
        "(Program ~ [(ClassDeclaration (Identifier =A) _ (ClassBody [(MethodDefinition \
         =constructor - + (Literal =string =constructor ~) (FunctionExpression - - _ [] \
         (BlockStatement [])))]))])",
        "/0/2/0 Method",
    ),
    (
        "(Program ~ [(ClassDeclaration (Identifier =A) _ (ClassBody [(MethodDefinition \
         =constructor - - (PrivateIdentifier =a) (FunctionExpression - - _ [] (BlockStatement \
         [])))]))])",
        "/0/2/0 Method",
    ),
    (
        "(Program ~ [(ExpressionStatement (ObjectExpression [(Property =init + - - (Identifier \
         =constructor) (FunctionExpression - - _ [] (BlockStatement [])))]))])",
        "ok",
    ),
];

pub const CHAINS: &[Row] = &[
    (
        "(Program ~ [(ExpressionStatement (ChainExpression (MemberExpression - + (Identifier =a) \
         (Identifier =b))))])",
        "ok",
    ),
    (
        "(Program ~ [(ExpressionStatement (ChainExpression (MemberExpression - - (Identifier =a) \
         (Identifier =b))))])",
        "/0/0 Chain",
    ),
    (
        "(Program ~ [(ExpressionStatement (MemberExpression - + (Identifier =a) (Identifier \
         =b)))])",
        "/0/0 Chain",
    ),
    (
        "(Program ~ [(ExpressionStatement (ChainExpression (MemberExpression - - \
         (MemberExpression - + (Identifier =a) (Identifier =b)) (Identifier =c))))])",
        "ok",
    ),
    (
        "(Program ~ [(ExpressionStatement (MemberExpression - - (MemberExpression - + (Identifier \
         =a) (Identifier =b)) (Identifier =c)))])",
        "/0/0/0 Chain",
    ),
    (
        "(Program ~ [(ExpressionStatement (ChainExpression (CallExpression + (Identifier =a) \
         [(MemberExpression - + (Identifier =b) (Identifier =c))])))])",
        "/0/0/0/1 Chain",
    ),
    (
        "(Program ~ [(ClassDeclaration (Identifier =A) (Identifier =B) (ClassBody \
         [(MethodDefinition =method - - (Identifier =c) (FunctionExpression - - _ [] \
         (BlockStatement [(ExpressionStatement (ChainExpression (MemberExpression - + \
         (MemberExpression - - (Super) (Identifier =a)) (Identifier =b))))])))]))])",
        "ok",
    ),
    (
        "(Program ~ [(ClassDeclaration (Identifier =A) (Identifier =B) (ClassBody \
         [(MethodDefinition =method - - (Identifier =c) (FunctionExpression - - _ [] \
         (BlockStatement [(ExpressionStatement (ChainExpression (MemberExpression - + \
         (MemberExpression - + (Super) (Identifier =a)) (Identifier =b))))])))]))])",
        "/0/2/0/1/1/0/0/0/0 Chain",
    ),
    (
        "(Program ~ [(ExpressionStatement (MemberExpression - - (ChainExpression \
         (MemberExpression - + (Identifier =a) (Identifier =b))) (Identifier =c)))])",
        "ok",
    ),
    (
        "(Program ~ [(ExpressionStatement (MemberExpression - + (ChainExpression \
         (MemberExpression - + (Identifier =a) (Identifier =b))) (Identifier =c)))])",
        "/0/0 Chain",
    ),
];

pub const CONTEXTS: &[Row] = &[
    (
        "(Program ~ [(ExpressionStatement (AwaitExpression (Identifier =a)))])",
        "ok",
    ),
    (
        "(Program ~ [(FunctionDeclaration - - (Identifier =f) [] (BlockStatement \
         [(ExpressionStatement (AwaitExpression (Identifier =a)))]))])",
        "/0/1/0/0 Context",
    ),
    (
        "(Program ~ [(FunctionDeclaration + - (Identifier =f) [(AssignmentPattern (Identifier =a) \
         (AwaitExpression (Identifier =a)))] (BlockStatement []))])",
        "/0/1/1 Context",
    ),
    (
        "(Program ~ [(ExpressionStatement (ArrowFunctionExpression + [] (AwaitExpression \
         (Identifier =a))))])",
        "ok",
    ),
    (
        "(Program ~ [(ExpressionStatement (ArrowFunctionExpression - [] (AwaitExpression \
         (Identifier =a))))])",
        "/0/0/0 Context",
    ),
    (
        "(Program ~ [(ExpressionStatement (YieldExpression - _))])",
        "/0/0 Context",
    ),
    (
        "(Program ~ [(FunctionDeclaration - + (Identifier =f) [] (BlockStatement \
         [(ExpressionStatement (YieldExpression - _))]))])",
        "ok",
    ),
    (
        "(Program ~ [(FunctionDeclaration - + (Identifier =f) [] (BlockStatement \
         [(ExpressionStatement (ArrowFunctionExpression - [] (YieldExpression - _)))]))])",
        "/0/1/0/0/0 Context",
    ),
    (
        "(Program ~ [(FunctionDeclaration - - (Identifier =f) [] (BlockStatement [(ForOfStatement \
         + (Identifier =a) (Identifier =b) (EmptyStatement))]))])",
        "/0/1/0 Context",
    ),
    (
        "(Program ~ [(ForOfStatement + (Identifier =a) (Identifier =b) (EmptyStatement))])",
        "ok",
    ),
    (
        "(Program ~ [(ClassDeclaration (Identifier =A) _ (ClassBody [(PropertyDefinition - - \
         (Identifier =b) (AwaitExpression (Identifier =a)))]))])",
        "/0/2/0/1 Context",
    ),
    (
        "(Program ~ [(ClassDeclaration (Identifier =A) _ (ClassBody [(PropertyDefinition + - \
         (AwaitExpression (Identifier =a)) (Identifier =c))]))])",
        "ok",
    ),
    (
        "(Program ~ [(ClassDeclaration (Identifier =A) _ (ClassBody [(StaticBlock \
         [(ExpressionStatement (AwaitExpression (Identifier =a)))])]))])",
        "/0/2/0/0/0 Context",
    ),
    (
        "(Program ~ [(ClassDeclaration (Identifier =A) _ (ClassBody [(PropertyDefinition - - \
         (PrivateIdentifier =a) (Literal =number =1 ~)) (MethodDefinition =method - - \
         (Identifier =b) (FunctionExpression - - _ [] (BlockStatement [(ReturnStatement \
         (BinaryExpression =in (PrivateIdentifier =a) (Identifier =c)))])))]))])",
        "ok",
    ),
    (
        "(Program ~ [(ExpressionStatement (BinaryExpression =in (PrivateIdentifier =a) \
         (Identifier =b)))])",
        "/0/0/0 Private",
    ),
    (
        "(Program ~ [(ExpressionStatement (MemberExpression - - (Identifier =a) \
         (PrivateIdentifier =a)))])",
        "/0/0/1 Private",
    ),
    (
        "(Program ~ [(ClassDeclaration (Identifier =A) (MemberExpression - - (Identifier =c) \
         (PrivateIdentifier =a)) (ClassBody []))])",
        "/0/1/1 Private",
    ),
    (
        "(Program ~ [(ClassDeclaration (Identifier =A) _ (ClassBody [(MethodDefinition =method - \
         - (Identifier =b) (FunctionExpression - - _ [] (BlockStatement [(ClassDeclaration \
         (Identifier =C) (MemberExpression - - (Identifier =c) (PrivateIdentifier =a)) \
         (ClassBody []))])))]))])",
        "ok",
    ),
];

pub const BRANCHES: &[Row] = &[
    (
        "(Program ~ [(IfStatement (Identifier =a) (IfStatement (Identifier =d) (EmptyStatement) \
         _) (ExpressionStatement (Identifier =c)))])",
        "/0 DanglingElse",
    ),
    (
        "(Program ~ [(IfStatement (Identifier =a) (BlockStatement [(IfStatement (Identifier =b) \
         (ExpressionStatement (Identifier =c)) _)]) (ExpressionStatement (Identifier =d)))])",
        "ok",
    ),
    (
        "(Program ~ [(IfStatement (Identifier =a) (IfStatement (Identifier =b) \
         (ExpressionStatement (Identifier =c)) (ExpressionStatement (Identifier =d))) \
         (ExpressionStatement (Identifier =e)))])",
        "ok",
    ),
    (
        "(Program ~ [(IfStatement (Identifier =a) (IfStatement (Identifier =b) \
         (ExpressionStatement (Identifier =c)) (WhileStatement (Identifier =d) (IfStatement \
         (Identifier =d) (EmptyStatement) _))) (ExpressionStatement (Identifier =e)))])",
        "/0 DanglingElse",
    ),
    (
        "(Program ~ [(IfStatement (Identifier =a) (LabeledStatement (Identifier =l) (ForStatement \
         _ _ _ (IfStatement (Identifier =b) (ExpressionStatement (Identifier =c)) _))) \
         (ExpressionStatement (Identifier =e)))])",
        "/0 DanglingElse",
    ),
    (
        "(Program ~ [(IfStatement (Identifier =a) (DoWhileStatement (IfStatement (Identifier =b) \
         (ExpressionStatement (Identifier =c)) _) (Identifier =d)) (ExpressionStatement \
         (Identifier =e)))])",
        "ok",
    ),
    (
        "(Program ~ [(SwitchStatement (Identifier =a) [(SwitchCase _ []) (SwitchCase _ [])])])",
        "/0/2 DefaultTwice",
    ),
    (
        "(Program ~ [(SwitchStatement (Identifier =a) [(SwitchCase _ []) (SwitchCase _ [])])])",
        "/0/2 DefaultTwice",
    ),
    (
        "(Program ~ [(SwitchStatement (Identifier =a) [(SwitchCase _ []) (SwitchCase (Identifier \
         =b) [])])])",
        "ok",
    ),
    (
        "(Program ~ [(ImportDeclaration [(ImportSpecifier + (Identifier =b) (Identifier =b)) \
         (ImportDefaultSpecifier (Identifier =a))] (Literal =string =m ~))])",
        "/0 Specifiers",
    ),
    (
        "(Program ~ [(ImportDeclaration [(ImportNamespaceSpecifier (Identifier =c)) \
         (ImportSpecifier + (Identifier =b) (Identifier =b))] (Literal =string =m ~))])",
        "/0 Specifiers",
    ),
    (
        "(Program ~ [(ImportDeclaration [(ImportDefaultSpecifier (Identifier =a)) \
         (ImportNamespaceSpecifier (Identifier =b))] (Literal =string =m ~))])",
        "ok",
    ),
    (
        "(Program ~ [(ImportDeclaration [(ImportDefaultSpecifier (Identifier =a)) \
         (ImportDefaultSpecifier (Identifier =c))] (Literal =string =m ~))])",
        "/0 Specifiers",
    ),
    (
        "(Program ~ [(ImportDeclaration [(ImportNamespaceSpecifier (Identifier =b)) \
         (ImportNamespaceSpecifier (Identifier =c))] (Literal =string =m ~))])",
        "/0 Specifiers",
    ),
    (
        "(Program ~ [(ImportDeclaration [(ImportSpecifier + (Identifier =a) (Identifier =a)) \
         (ImportDefaultSpecifier (Identifier =c))] (Literal =string =m ~))])",
        "/0 Specifiers",
    ),
];
